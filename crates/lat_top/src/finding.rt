ghost use Rattle.std.specs.Prelude.{◌≡◌, ◌<◌, ◌≤◌, ℕ, length, IfOk};
ghost use Rattle.lat_base.specs.Names.{NamesFit};
ghost use Rattle.election_json.specs.Definition.{DefinitionValue, definition_of};
ghost use Rattle.lat_top.specs.AllJob.{definition_in_file, or_definition};
ghost use Rattle.lat_top.specs.Script.{Reads, moment};
ghost use Rattle.lat_top.specs.Judged.{Judged};
ghost use Rattle.lat_top.specs.AskedStyle.{asked_style, ruled_style, style_in_file};

use crate::asked_style::AskedStyle;
use crate::reading::{FILE_LIMIT, read_file};
use crate::refusal::Refusal;
use election_json::{DefFail, Definition, read_definition};
use lat_shelf::Shelf;
use std::alloc::{AllocError, Global};

/// Style number i, under the definition's rules.
#[tactic(auto, using(crate::proofs::PlanFacts::style_fits))]
pub fn ruled_style(alloc: Global, definition: &Definition, i: u32) -> Result<AskedStyle, AllocError>
    requires { i < length definition.now.styles }
    ensures style { IfOk result (λ style. style ≡ ruled_style definition.now i) }
    ensures fits { IfOk result (λ style. NamesFit style.names.contests style.shape) }
{
    let _styles = definition.styles();
    Ok(AskedStyle {
        names: definition.names(alloc, i)?,
        shape: definition.shape(alloc, i)?,
        rules: definition.rules(),
    })
}

// The style of that id, from the bytes of a definition, or the first refusal: the definition's
// first fault, then that no style has the id.
fn find_style(alloc: Global, bytes: &[u8], id: &str) -> Result<AskedStyle, Refusal>
    ensures style { Judged result (asked_style id.now bytes.now) }
    ensures fits { IfOk result (λ style. NamesFit style.names.contests style.shape) }
{
    let definition = match read_definition(alloc, bytes) {
        Ok(definition) => definition,
        Err(DefFail::Fault(fault)) => return Err(Refusal::Definition(fault)),
        Err(DefFail::Memory) => return Err(Refusal::Memory),
    };
    let Some(i) = definition.style(id) else {
        return Err(Refusal::NoStyle);
    };
    match ruled_style(alloc, &definition, i) {
        Ok(style) => Ok(style),
        Err(_) => Err(Refusal::Memory),
    }
}

// The definition that bytes are, or its first fault.
fn find_definition(alloc: Global, bytes: &[u8]) -> Result<Definition, Refusal>
    ensures { Judged result (or_definition (definition_of bytes.now)) }
{
    match read_definition(alloc, bytes) {
        Ok(definition) => Ok(definition),
        Err(DefFail::Fault(fault)) => Err(Refusal::Definition(fault)),
        Err(DefFail::Memory) => Err(Refusal::Memory),
    }
}

/// The definition in a file.
pub fn read_definition_file<H: Shelf>(
    alloc: Global,
    shelf: &mut H,
    name: &str,
) -> Result<Definition, Refusal>
    ensures { let seen = moment H.files H.faults in
        Reads (definition_in_file name.now) (seen shelf.old) (seen shelf.new) result }
{
    let definition = read_file(alloc, shelf, name, FILE_LIMIT)?;
    find_definition(alloc, &definition)
}

/// The style of that id in a definition's file.
pub fn read_style<H: Shelf>(
    alloc: Global,
    shelf: &mut H,
    name: &str,
    id: &str,
) -> Result<AskedStyle, Refusal>
    ensures reads { let seen = moment H.files H.faults in
        Reads (style_in_file name.now id.now) (seen shelf.old) (seen shelf.new) result }
    ensures fits { IfOk result (λ style. NamesFit style.names.contests style.shape) }
{
    let definition = read_file(alloc, shelf, name, FILE_LIMIT)?;
    find_style(alloc, &definition, id)
}
