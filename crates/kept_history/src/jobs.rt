// What the entries say of jobs.
ghost use Rattle.std.specs.Prelude.{◌≡◌, option_copied};
ghost use Rattle.cta_site.specs.declared.site.Policy.{Policy};
ghost use Rattle.cta_site.specs.Lookups.{place_by, policy_number};
ghost use Rattle.cta_model.specs.Bare.{bare_ask};
ghost use Rattle.cta_model.specs.History.{entry_of, moment_by};
ghost use Rattle.cta_model.specs.Policies.{policy_by, policy_of_birth};
ghost use Rattle.kept_history.specs.Births.{policy_of_actor};

use crate::history::KeptHistory;
use cta_model::{Actor, Ask, Entry};
use cta_site::{Policy, ValidSite};

// The place of the policy of this name.
fn place_of(policies: &[Policy], name: &[u8]) -> Option<usize>
    ensures { result ≡ place_by (λ (p : Policy). p.name) policies.now name.now }
{
    policies.iter().position(|policy| policy.name.is(name))
}

// The number of the policy of this name, and where there is none the number of policies.
fn policy_number(site: &ValidSite, name: &[u8]) -> u32
    ensures { result ≡ policy_number site.now name.now }
{
    site.keeps_rules();
    let policies = site.policies();
    place_of(policies, name).unwrap_or(policies.len()) as u32
}

// The number of the policy of who asked.
fn policy_of_actor(site: &ValidSite, actor: &Actor) -> u32
    ensures { result ≡ policy_of_actor site.now actor.now }
{
    match actor {
        Actor::Caller(who) => site.policy_of(who.requester.as_bytes(), who.group.as_bytes()),
        Actor::Drive(_) => policy_number(site, site.default_policy().as_bytes()),
    }
}

// The number of the policy of jobs that an entry bears.
fn policy_of_birth(site: &ValidSite, entry: &Entry) -> u32
    ensures { result ≡ policy_of_birth site.now entry.now.actor (bare_ask entry.now.ask) }
{
    match &entry.ask {
        Ask::Repack { .. } | Ask::Recalled { .. } => {
            policy_number(site, site.repack_policy().as_bytes())
        }
        Ask::Retry { .. } => policy_number(site, site.default_policy().as_bytes()),
        _ => policy_of_actor(site, &entry.actor),
    }
}

impl KeptHistory {
    /// The moment of the entry by which a job was born, in seconds since 1970; 0 where there is no such entry. In constant
    /// time.
    pub fn born_at(&self, birth: u32) -> u64
        ensures { result ≡ moment_by (entry_of self.now.value birth) }
    {
        match self.entry(birth) {
            Some(entry) => entry.at,
            None => 0,
        }
    }

    /// The mount policy of the jobs that an entry bears: the site's repack policy for a Repack and a Recalled, its default
    /// policy for a Retry, and that of the caller for every other ask; None where there is no such entry. Its cost is the number
    /// of the site's policies, of which there are at most 64. CTA; the policy of a Retry is this project's own.
    pub fn policy_of<'s>(&self, site: &'s ValidSite, birth: u32) -> Option<&'s Policy>
        ensures { option_copied result ≡ policy_by site.now (entry_of self.now.value birth) }
    {
        let entry = self.entry(birth)?;
        site.policies().get(policy_of_birth(site, entry) as usize)
    }
}
