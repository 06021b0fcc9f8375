ghost use Rattle.std.specs.Prelude.{◌≡◌, option_map};
ghost use Rattle.cert_types.specs.OpenValue.{IsOpenValue, open_of};

use crate::{License, Lower, Proved};
use lat_base::{Names, Rules, Shape};
use std::marker::Model;

/// What a plan leaves that spent its budget: the style with its names and rules, the greatest
/// number of ballots that was asked for, the number below which no deck is good, the best deck so
/// far, and the search at that number as far as it came. The type keeps that the parts fit one
/// another; whether they hold is a matter of the check.
#[derive(Debug, Drop)]
pub struct OpenFile {
    names: Names,
    shape: Shape,
    rules: Rules,
    max: u16,
    from: u16,
    lower: Option<Lower>,
    best: Option<Proved>,
    license: License,
}

impl Model for OpenFile {
    ghost use Rattle.cert_types.specs.OpenValue.{OpenValue, IsOpenValue, open_of};

    ghost Value = { OpenValue };

    ghost view = { λ a. open_of a.names a.shape a.rules a.max a.from a.lower a.best a.license };

    ghost invariant = { λ a.
        IsOpenValue (open_of a.names a.shape a.rules a.max a.from a.lower a.best a.license) };
}

impl OpenFile {
    /// The open file of these parts. The names must fit the shape; `max` must be from 1 to 1,024
    /// and `from` at most `max`. A lower part must be there exactly where `from` is above 0, of
    /// size `from - 1`, its contests at least one, rising and in the shape. Each deck must have the
    /// shape's number of targets, and that of a license `from` ballots.
    pub fn new(
        names: Names,
        shape: Shape,
        rules: Rules,
        max: u16,
        from: u16,
        lower: Option<Lower>,
        best: Option<Proved>,
        license: License,
    ) -> OpenFile
        requires { IsOpenValue (open_of names shape rules max from lower best license) }
        ensures { result ≡ open_of names shape rules max from lower best license }
    {
        OpenFile {
            names,
            shape,
            rules,
            max,
            from,
            lower,
            best,
            license,
        }
    }

    /// The names of the style, its contests and their targets.
    pub fn names(&self) -> &Names
        ensures { result.now ≡ self.now.names }
    {
        &self.names
    }

    /// The shape of the style.
    pub fn shape(&self) -> &Shape
        ensures { result.now ≡ self.now.contests }
    {
        &self.shape
    }

    /// The rules of the definition.
    pub fn rules(&self) -> Rules
        ensures { result ≡ self.now.rules }
    {
        self.rules
    }

    /// The greatest number of ballots that was asked for. The parts fit one another.
    pub fn max(&self) -> u16
        ensures value { result ≡ self.now.max }
        ensures kept { IsOpenValue self.now }
    {
        self.max
    }

    /// The number of ballots below which no deck is good.
    pub fn from(&self) -> u16
        ensures value { result ≡ self.now.from }
        ensures kept { IsOpenValue self.now }
    {
        self.from
    }

    /// The lower part, if there is one.
    pub fn lower(&self) -> Option<&Lower>
        ensures { option_map (λ lower. lower.now) result ≡ self.now.lower }
    {
        self.lower.as_ref()
    }

    /// The best deck with its tree, if there is one.
    pub fn best(&self) -> Option<&Proved>
        ensures { option_map (λ best. best.now) result ≡ self.now.best }
    {
        self.best.as_ref()
    }

    /// What the search left.
    pub fn license(&self) -> &License
        ensures { result.now ≡ self.now.license }
    {
        &self.license
    }

    /// The fields, in the order of `new`. It takes no memory.
    pub fn into_parts(
        self,
    ) -> (
        Names,
        Shape,
        Rules,
        u16,
        u16,
        Option<Lower>,
        Option<Proved>,
        License,
    )
        ensures parts { self ≡ open_of result.0 result.1 result.2 result.3 result.4 result.5
            result.6 result.7 }
        ensures kept { IsOpenValue self }
    {
        (
            self.names,
            self.shape,
            self.rules,
            self.max,
            self.from,
            self.lower,
            self.best,
            self.license,
        )
    }
}
