ghost use Rattle.std.specs.Prelude.{◌≡◌, ◌≢◌, ◌<◌, ◌↔◌, length, position, IfOk, IfSome, IsNone, All};
ghost use Rattle.std.specs.Str.{bytes_eq};

use crate::contest_table::ContestTable;
use crate::style_entry::StyleEntry;
use crate::style_names::names_of;
use crate::style_shape::shape_of;
use lat_base::{Names, Rules, Shape};
use std::alloc::{AllocError, Global};
use std::marker::Model;

/// A definition: the rules of a test deck and the ballot styles, in order.
#[derive(Debug, Drop)]
pub struct Definition {
    pub(crate) rules: Rules,
    pub(crate) contests: ContestTable,
    pub(crate) styles: Vec<StyleEntry>,
}

impl Model for Definition {
    ghost use Rattle.std.specs.Prelude.{All};
    ghost use Rattle.election_json.specs.Definition.{DefinitionValue, IsDefinition};

    ghost Value = { DefinitionValue };

    ghost use Rattle.election_json.specs.Kept.{kept_styles, IsWithin};

    ghost view = { λ a.
        record { rules = a.rules; styles = kept_styles a.contests a.styles.items } };

    ghost invariant = { λ a. IsDefinition
        (record { rules = a.rules; styles = kept_styles a.contests a.styles.items }) ×
        All (IsWithin a.contests) a.styles.items };
}

// The place of the style that has this id.
fn find_style(styles: &[StyleEntry], id: &[u8]) -> Option<usize>
    ensures { result ≡ position (λ s. bytes_eq id.now s.id) styles.now }
{
    styles.iter().position(|style| id == style.id.as_bytes())
}

impl Definition {
    ghost use Rattle.election_json.specs.Definition.{IsDefinition, style_at};

    /// The rules.
    pub fn rules(&self) -> Rules
        ensures { result ≡ self.now.rules }
    {
        self.rules
    }

    /// How many styles there are: 1 to 4,096.
    pub fn styles(&self) -> u32
        ensures count { result ≡ length self.now.styles }
        ensures limits { IsDefinition self.now }
    {
        self.styles.len() as u32
    }

    /// The place of the style that has this id, counted from 0; `None` where no style has it.
    pub fn style(&self, id: &str) -> Option<u32>
        ensures place { result ≡ position (λ s. bytes_eq id.now s.names.style) self.now.styles }
        ensures found { IfSome result
            (λ i. (i < length self.now.styles) × ((style_at self.now i).names.style ≡ id.now)) }
        ensures none { IsNone result ↔ All (λ s. s.names.style ≢ id.now) self.now.styles }
    {
        match find_style(self.styles.as_slice(), id.as_bytes()) {
            Some(i) => Some(i as u32),
            None => None,
        }
    }

    /// The names of style number `i`, counted from 0.
    pub fn names(&self, alloc: Global, i: u32) -> Result<Names, AllocError>
        requires { i < length self.now.styles }
        ensures { IfOk result (λ names. names ≡ (style_at self.now i).names) }
    {
        names_of(alloc, &self.contests, &self.styles[i as usize])
    }

    /// The shape of style number `i`, counted from 0.
    pub fn shape(&self, alloc: Global, i: u32) -> Result<Shape, AllocError>
        requires { i < length self.now.styles }
        ensures { IfOk result (λ shape. shape ≡ (style_at self.now i).shape) }
    {
        shape_of(alloc, &self.contests, &self.styles[i as usize])
    }
}
