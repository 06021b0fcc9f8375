ghost use Rattle.std.specs.Prelude.{◌≡◌, option_map};
ghost use Rattle.cert_types.specs.CertValue.{IsCertValue, cert_of};

use crate::{Lower, Proved, Verdict};
use lat_base::{Names, Rules, Shape};
use std::marker::Model;

/// A certificate: a style with its names and rules, a verdict, and what is to show it. The type
/// keeps that the parts are there which the verdict needs, and that they fit one another; whether
/// they hold is a matter of the check.
#[derive(Debug, Drop)]
pub struct Cert {
    names: Names,
    shape: Shape,
    rules: Rules,
    verdict: Verdict,
    proved: Option<Proved>,
    lower: Option<Lower>,
}

impl Model for Cert {
    ghost use Rattle.cert_types.specs.CertValue.{CertValue, IsCertValue, cert_of};

    ghost Value = { CertValue };

    ghost view = { λ a. cert_of a.names a.shape a.rules a.verdict a.proved a.lower };

    ghost invariant = { λ a.
        IsCertValue (cert_of a.names a.shape a.rules a.verdict a.proved a.lower) };
}

impl Cert {
    /// The certificate of these parts. The names must fit the shape. `Least(k)` must have a deck of
    /// k ballots and `NoneWithin` none; a deck must have the shape's number of targets. A lower
    /// part must be there for `NoneWithin(m)`, of size m, and for `Least` and `Bounds` of a number
    /// n above 0, of size n - 1; its contests must be at least one, rising and in the shape. No
    /// number of the verdict may be above 1,024, nor that of `NoneWithin` be 0.
    pub fn new(
        names: Names,
        shape: Shape,
        rules: Rules,
        verdict: Verdict,
        proved: Option<Proved>,
        lower: Option<Lower>,
    ) -> Cert
        requires { IsCertValue (cert_of names shape rules verdict proved lower) }
        ensures { result ≡ cert_of names shape rules verdict proved lower }
    {
        Cert {
            names,
            shape,
            rules,
            verdict,
            proved,
            lower,
        }
    }

    /// The names of the style, its contests and their targets.
    pub fn names(&self) -> &Names
        ensures { result.now ≡ self.now.names }
    {
        &self.names
    }

    /// The shape of the style.
    pub fn shape(&self) -> &Shape
        ensures { result.now ≡ self.now.contests }
    {
        &self.shape
    }

    /// The rules of the definition.
    pub fn rules(&self) -> Rules
        ensures { result ≡ self.now.rules }
    {
        self.rules
    }

    /// The verdict. The parts are there that it needs.
    pub fn verdict(&self) -> Verdict
        ensures verdict { result ≡ self.now.verdict }
        ensures kept { IsCertValue self.now }
    {
        self.verdict
    }

    /// The deck with its tree, if there is one.
    pub fn proved(&self) -> Option<&Proved>
        ensures { option_map (λ proved. proved.now) result ≡ self.now.proved }
    {
        self.proved.as_ref()
    }

    /// The lower part, if there is one.
    pub fn lower(&self) -> Option<&Lower>
        ensures { option_map (λ lower. lower.now) result ≡ self.now.lower }
    {
        self.lower.as_ref()
    }

    /// The fields, in the order of `new`. It takes no memory.
    pub fn into_parts(self) -> (Names, Shape, Rules, Verdict, Option<Proved>, Option<Lower>)
        ensures parts { cert_of result.0 result.1 result.2 result.3 result.4 result.5 ≡ self }
        ensures kept { IsCertValue self }
    {
        (
            self.names,
            self.shape,
            self.rules,
            self.verdict,
            self.proved,
            self.lower,
        )
    }
}
