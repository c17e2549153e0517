// The mount that a row of open mounts stands for.
ghost use Rattle.std.specs.Prelude.{◌≡◌, Some, true};
ghost use Rattle.cta_site.specs.declared.site.Site.{Site};
ghost use Rattle.cta_model.specs.History.{History};
ghost use Rattle.cta_model.specs.Mounts.{mount_of};
ghost use Rattle.part_model.specs.Mounts.{has_mount};
ghost use Rattle.part_laws.specs.Mounts.{AreOpenMounts};

use cta_model::Mount;
use open_mounts::OpenMounts;

/// The mount of this number, which is open. Its cost is the number of open mounts. This project's own.
pub fn mount_at(mounts: &OpenMounts, mount: u32) -> Mount
    requires { has_mount mount mounts.now.value.rows ≡ true }
    ensures { (site : Site) (h : History) → AreOpenMounts site h mounts.now.value.rows → mount_of h mount ≡ Some result }
{
    match mounts.find(mount) {
        Some(row) => Mount {
            drive: row.drive,
            direction: row.direction,
            tape: row.tape,
        },
        None => unreachable!(),
    }
}
