//! A city's grants.

ghost use Rattle.std.specs.Prelude.{◌≡◌, option_copied};
ghost use Rattle.cf_grants.specs.Grants.{grant_at, has_grant};

use crate::grant::Grant;
use cf_calls::List;
use std::marker::Model;

/// The grants of a city, in the order of their document.
#[derive(Drop)]
pub struct Grants {
    pub(crate) grants: List<Grant>,
}

impl Model for Grants {
    ghost use Rattle.std.specs.Prelude.{List as Seq};
    ghost use Rattle.cf_grants.specs.declared.grant.Grant.{Grant as AGrant};

    ghost Value = { Seq AGrant };

    ghost view = { λ g. g.grants };
}

impl Grants {
    /// The grants, in the order of their document.
    pub fn as_slice(&self) -> &[Grant]
        ensures { result.now ≡ self.now }
    {
        self.grants.as_slice()
    }

    /// The grant of this id.
    pub fn grant(&self, id: u16) -> Option<&Grant>
        ensures { option_copied result ≡ grant_at self.now id }
    {
        self.grants.as_slice().iter().find(|grant| grant.id == id)
    }

    /// Whether there is a grant of this id.
    pub fn has(&self, id: u16) -> bool
        ensures { result ≡ has_grant self.now id }
    {
        self.grant(id).is_some()
    }
}
