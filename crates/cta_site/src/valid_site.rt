// A site that keeps its rules.
ghost use Rattle.std.specs.Prelude.{◌≡◌, ◌<◌, length, IfOk};
ghost use Rattle.cta_site.specs.Bare.{bare_site};
ghost use Rattle.cta_site.specs.Laws.{DrivesAreNamed, DrivesAreFound, TapesAreNamed, TapesAreFound, ClassesAreKnown, PoliciesAreKnown, CopiesAreRouted};
ghost use Rattle.cta_site.specs.Lookups.{class_of, copies_of, policy_of, pool_of, drive_of, tape_of, HasRoute};
ghost use Rattle.cta_site.specs.ValidSite.{IsValidSite};
ghost use Rattle.cta_site.specs.WellFormed.{IsWellFormed};

use crate::copies::copy_of;
use crate::index::Index;
use crate::lookups::{copies_at, directory_of, number_of, policy_name, route_of};
use crate::site::{
    Class, Directory, Drive, Failure, Limits, Policy, Route, Rule, Site, Tape, TapePool, Vo,
};
use cta_values::{NoMemory, Text};
use std::alloc::Global;
use std::marker::Model;

/// A site that keeps the rules of a site (this project's own). Contracts see it as the `Site`, with no room to spare in
/// its lists, so that two are equal where they say the same.
///
/// Virtual organisations, storage classes, tape pools, mount policies, libraries, tapes and drives are numbered from 0
/// in byte order of their names (VIDs for tapes), so order of numbers is order of names.
#[derive(Drop)]
pub struct ValidSite {
    site: Site,
    index: Index,
}

impl Model for ValidSite {
    ghost use Rattle.cta_site.specs.declared.site.Site.{Site};
    ghost use Rattle.cta_site.specs.Bare.{bare_site};
    ghost use Rattle.cta_site.specs.Index.{IsIndexOf};
    ghost use Rattle.cta_site.specs.ValidSite.{IsValidSite};
    ghost use Rattle.cta_site.specs.WellFormed.{IsWellFormed};

    ghost Value = { Site };

    ghost view = { λ v. bare_site v.site };

    ghost invariant = { λ v. IsValidSite (bare_site v.site) × IsWellFormed (bare_site v.site) × IsIndexOf v.index v.site };
}

impl ValidSite {
    // The valid site that this site is.
    pub(crate) fn of(alloc: Global, site: Site) -> Result<ValidSite, NoMemory>
        requires { IsValidSite (bare_site site) }
        ensures { IfOk result (λ valid. valid ≡ bare_site site) }
    {
        let index = Index::of(alloc, &site)?;
        Ok(ValidSite { site, index })
    }

    /// The same site once more (this project's own). NoMemory leaves nothing. Its cost is the size of the site's texts, and
    /// the number of elements times its logarithm.
    pub fn copy(&self, alloc: Global) -> Result<ValidSite, NoMemory>
        ensures { IfOk result (λ copy. copy ≡ self.now) }
    {
        let site = copy_of(alloc, &self.site)?;
        ValidSite::of(alloc, site)
    }

    /// That the site keeps rules 3 to 30 of a site, with its numbered lists in order, and what follows part by part: a
    /// law, which does nothing when it runs.
    pub fn keeps_rules(&self)
        ensures valid { IsValidSite self.now }
        ensures parts { IsWellFormed self.now }
    {
        let _site = &self.site;
    }

    /// That drives and tapes are named: each name has its form and names one drive, and each VID one tape. A law, which
    /// does nothing when it runs.
    pub fn names_differ(&self)
        ensures drives_named { DrivesAreNamed self.now }
        ensures drives_found { DrivesAreFound self.now }
        ensures tapes_named { TapesAreNamed self.now }
        ensures tapes_found { TapesAreFound self.now }
    {
        let _site = &self.site;
    }

    /// That a path's class, a caller's policy and a copy's pool are the site's own, and that a path with a class has 1 to 4
    /// copies. A law, which does nothing when it runs.
    pub fn numbers_are_known(&self)
        ensures classes { ClassesAreKnown self.now }
        ensures policies { PoliciesAreKnown self.now }
        ensures pools { CopiesAreRouted self.now }
    {
        let _site = &self.site;
    }

    /// The version of the site file's form.
    pub fn version(&self) -> u32
        ensures { result ≡ self.now.version }
    {
        self.site.version
    }

    /// The site's name.
    pub fn sitename(&self) -> &Text
        ensures { result.now ≡ self.now.sitename }
    {
        &self.site.sitename
    }

    /// The address of the site's WLCG Tape REST API.
    pub fn endpoint(&self) -> &Text
        ensures { result.now ≡ self.now.endpoint }
    {
        &self.site.endpoint
    }

    /// The name of the mount policy of whom no rule names.
    pub fn default_policy(&self) -> &Text
        ensures { result.now ≡ self.now.default_policy }
    {
        &self.site.default_policy
    }

    /// The name of the mount policy of repacks.
    pub fn repack_policy(&self) -> &Text
        ensures { result.now ≡ self.now.repack_policy }
    {
        &self.site.repack_policy
    }

    /// The site's limits, each in its range.
    pub fn limits(&self) -> Limits
        ensures value { result ≡ self.now.limits }
        ensures valid { IsValidSite self.now }
    {
        self.site.limits
    }

    /// The virtual organisations, in the order of their numbers.
    pub fn vos(&self) -> &[Vo]
        ensures { result.now ≡ self.now.vos.items }
    {
        self.site.vos.as_slice()
    }

    /// The storage classes, in the order of their numbers.
    pub fn classes(&self) -> &[Class]
        ensures { result.now ≡ self.now.classes.items }
    {
        self.site.classes.as_slice()
    }

    /// The tape pools, in the order of their numbers.
    pub fn pools(&self) -> &[TapePool]
        ensures { result.now ≡ self.now.pools.items }
    {
        self.site.pools.as_slice()
    }

    /// The archive routes, in the file's order.
    pub fn routes(&self) -> &[Route]
        ensures { result.now ≡ self.now.routes.items }
    {
        self.site.routes.as_slice()
    }

    /// The mount policies, in the order of their numbers.
    pub fn policies(&self) -> &[Policy]
        ensures { result.now ≡ self.now.policies.items }
    {
        self.site.policies.as_slice()
    }

    /// The mount rules, in the file's order.
    pub fn rules(&self) -> &[Rule]
        ensures { result.now ≡ self.now.rules.items }
    {
        self.site.rules.as_slice()
    }

    /// The names of the libraries, in the order of their numbers.
    pub fn libraries(&self) -> &[Text]
        ensures { result.now ≡ self.now.libraries.items }
    {
        self.site.libraries.as_slice()
    }

    /// The tapes, in the order of their numbers.
    pub fn tapes(&self) -> &[Tape]
        ensures { result.now ≡ self.now.tapes.items }
    {
        self.site.tapes.as_slice()
    }

    /// The drives, in the order of their numbers.
    pub fn drives(&self) -> &[Drive]
        ensures { result.now ≡ self.now.drives.items }
    {
        self.site.drives.as_slice()
    }

    /// The directories, in the file's order.
    pub fn directories(&self) -> &[Directory]
        ensures { result.now ≡ self.now.directories.items }
    {
        self.site.directories.as_slice()
    }

    /// The planned failures, in the file's order.
    pub fn failures(&self) -> &[Failure]
        ensures { result.now ≡ self.now.failures.items }
    {
        self.site.failures.as_slice()
    }

    /// The number of the storage class that a path has: that of the longest site directory such that the path begins
    /// with it and a slash. None exactly where no site directory is so. The site has the class (`numbers_are_known`).
    /// Its cost is a look-up in logarithmic time for each slash of the path.
    pub fn class_of(&self, path: &[u8]) -> Option<u32>
        ensures { result ≡ class_of self.now path.now }
    {
        let classes = self.site.classes.as_slice();
        let directories = self.site.directories.as_slice();
        match directory_of(&self.index.directories, directories, path) {
            Some(directory) => {
                let class = directory.class.as_bytes();
                Some(number_of(&self.index.classes, classes, class))
            }
            None => None,
        }
    }

    /// How many copies the path's storage class has, 1 to 4, and 0 where the path has no class. Its cost is that of
    /// `class_of`.
    pub fn copies_of(&self, path: &[u8]) -> u8
        ensures { result ≡ copies_of self.now path.now }
    {
        match self.class_of(path) {
            Some(class) => copies_at(self.site.classes.as_slice(), class),
            None => 0,
        }
    }

    /// The number of the mount policy of a caller: of the requester's rule, else of the group's rule, else the default
    /// policy. The site has the policy (`numbers_are_known`). It takes logarithmic time.
    pub fn policy_of(&self, requester: &[u8], group: &[u8]) -> u32
        ensures { result ≡ policy_of self.now requester.now group.now }
    {
        let name = policy_name(
            &self.index.requesters,
            &self.index.groups,
            self.site.rules.as_slice(),
            self.site.default_policy.as_bytes(),
            requester,
            group,
        );
        number_of(&self.index.policies, self.site.policies.as_slice(), name)
    }

    /// The number of the pool that this copy, counted from 1, of the storage class of this number goes to. The site
    /// must have the class and a route for the copy. It takes logarithmic time.
    pub fn pool_of(&self, class: u32, copy: u8) -> u32
        requires class { class < length self.now.classes.items }
        requires route { HasRoute self.now class copy }
        ensures { result ≡ pool_of self.now class copy }
    {
        let class = &self.site.classes.as_slice()[class as usize];
        let routes = self.site.routes.as_slice();
        match route_of(&self.index.routes, routes, class.name.as_bytes(), copy) {
            Some(route) => {
                let pools = self.site.pools.as_slice();
                number_of(&self.index.pools, pools, route.pool.as_bytes())
            }
            None => unreachable!(),
        }
    }

    /// The number of the drive of this name, None exactly where no drive has it. It takes logarithmic time.
    pub fn drive_of(&self, name: &[u8]) -> Option<u32>
        ensures { result ≡ drive_of self.now name.now }
    {
        self.index.drives.number(name)
    }

    /// The number of the tape of this VID, None exactly where no tape has it. It takes logarithmic time.
    pub fn tape_of(&self, vid: &[u8]) -> Option<u32>
        ensures { result ≡ tape_of self.now vid.now }
    {
        self.index.tapes.number(vid)
    }
}
