// The files of requests that fail, since their recalls end with the last place of the file.
ghost use Rattle.std.specs.Prelude.{◌≡◌, length, codes};
ghost use Rattle.part_model.specs.declared.space.FileEnd.TheVariants as ends;
ghost use Rattle.part_model.specs.Requests.{RequestsAgree, finish_all};
ghost use Rattle.part_moves.specs.Texts.{AreAll};

use cta_site::Text;
use part_model::FileEnd;
use stage_book::StageBook;

// The files fail in these requests where they wait, with these errors. There are as many errors as files.
pub(crate) fn fail_all(
    requests: &mut StageBook,
    pairs: &[(u32, u32)],
    mut texts: Vec<Text>,
    at: u64,
)
    requires many { length texts.items ≡ length pairs.now }
    requires same { AreAll (codes "no tape is left") texts.items }
    ensures { RequestsAgree requests.new (finish_all at (λ f. ends.Failed (codes "no tape is left")) pairs.now requests.old) }
{
    for pair in pairs {
        let Some(text) = texts.pop() else {
            unreachable!();
        };
        requests.finish(pair.0, pair.1, at, FileEnd::Failed(text));
    }
}
