// Laws of sites, as functions that do nothing when they run.
ghost use Rattle.cta_site.specs.declared.site.Site.{Site};
ghost use Rattle.std.specs.Prelude.{◌≡◌, None};
ghost use Rattle.cta_site.specs.Faults.{first_fault};
ghost use Rattle.cta_site.specs.Laws.{ClassesAreKnown, CopiesAreRouted, PoliciesAreKnown, RoutesGoApart};
ghost use Rattle.cta_site.specs.Numbering.{IsNumberedFrom};
ghost use Rattle.cta_site.specs.Sites.{large_site, small_site};
ghost use Rattle.cta_site.specs.ValidSite.{IsValidSite};
ghost use Rattle.cta_site.specs.WellFormed.{IsWellFormed};

/// A smallest site and a larger one are valid, so no rule refuses all sites.
pub fn example_sites_are_valid()
    ensures small { IsValidSite small_site }
    ensures large { IsValidSite large_site }
{}

/// What follows from the rules of a valid site, part by part.
pub fn valid_is_well_formed()
    ensures { (site : Site) → IsValidSite site → IsWellFormed site }
{}

/// The numbers that a valid site answers are those of its own classes, policies and pools.
pub fn numbers_are_known()
    ensures classes { (site : Site) → IsValidSite site → ClassesAreKnown site }
    ensures policies { (site : Site) → IsValidSite site → PoliciesAreKnown site }
    ensures pools { (site : Site) → IsValidSite site → CopiesAreRouted site }
{}

/// The routes of a class go to different pools. Rule 23 of a site file.
pub fn routes_go_apart()
    ensures { (site : Site) → IsValidSite site → RoutesGoApart site }
{}

/// A site that keeps the rules is numbered in one way. So a site file tells one valid site.
pub fn one_numbering()
    ensures { (file a b : Site) → first_fault file ≡ None → IsNumberedFrom file a → IsNumberedFrom file b → a ≡ b }
{}
