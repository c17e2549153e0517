// Whether a site keeps its rules.
ghost use Rattle.std.specs.Prelude.{◌≡◌, IfOk, MatchResult};
ghost use Rattle.cta_site.specs.Bare.{bare_site};
ghost use Rattle.cta_site.specs.Faults.{first_fault, IsCauseOf};
ghost use Rattle.cta_site.specs.Numbering.{IsNumberedFrom};

use crate::faults::first_fault;
use crate::order::sort_site;
use crate::site::Site;
use crate::valid_site::ValidSite;
use cta_values::NoMemory;
use std::alloc::Global;

/// Why a site is no valid site.
#[derive(Clone, Copy, Debug, PartialEq, Eq)]
pub enum SiteError {
    /// The site breaks a rule: its number, and the place, from 0, of the first element that breaks it in its list, 0
    /// where the rule speaks of no element.
    Fault { rule: u8, item: u32 },
    /// An allocation failed.
    NoMemory,
}

impl From<NoMemory> for SiteError {
    ghost use Rattle.std.specs.Prelude.{◌≡◌};
    ghost use Rattle.cta_site.specs.declared.check.SiteError.TheVariants.{NoMemory};

    ghost from_gives = { λ _ e. e ≡ NoMemory };

    fn from(_error: NoMemory) -> SiteError {
        SiteError::NoMemory
    }
}

// The valid site of a site that keeps rules 3 to 30, its numbered lists in order.
fn numbered(alloc: Global, mut site: Site) -> Result<ValidSite, NoMemory>
    requires { first_fault site ≡ None }
    ensures { IfOk result (IsNumberedFrom site) }
{
    sort_site(&mut site)?;
    ValidSite::of(alloc, site)
}

impl Site {
    // Tries rules 3 to 30: Ok exactly where the site keeps them all, Fault the first one that it breaks with the item
    // that breaks it, and NoMemory where there is no memory to find out.
    fn test(&self, alloc: Global) -> Result<(), SiteError>
        ensures { MatchResult result (λ _. first_fault self.now ≡ None) (λ e. IsCauseOf e (first_fault self.now)) }
    {
        match first_fault(alloc, self)? {
            None => Ok(()),
            Some((rule, item)) => Err(SiteError::Fault { rule, item }),
        }
    }

    /// The valid site that a site is (this project's own): Ok exactly where it keeps rules 3 to 30, Fault the first one
    /// that it breaks with the item that breaks it, and NoMemory where there is no memory for it. In the valid site each
    /// numbered list is the site's list in byte order of names; all else is the site's. Its cost is the size of the
    /// site's texts, and the number of elements times its logarithm.
    #[tactic(auto, using(crate::proofs::Numbered::numbered_from_bare))]
    pub fn check(self, alloc: Global) -> Result<ValidSite, SiteError>
        ensures { MatchResult result (λ valid. (first_fault self ≡ None) × IsNumberedFrom (bare_site self) valid) (λ e. IsCauseOf e (first_fault self)) }
    {
        self.test(alloc)?;
        Ok(numbered(alloc, self)?)
    }
}
