// The entries that wait for the recall of a file that is deleted, and the files of requests among them.
ghost use Rattle.std.specs.Prelude.{◌≡◌, length, codes};
ghost use Rattle.part_model.specs.declared.space.FileEnd.TheVariants as ends;
ghost use Rattle.part_model.specs.Requests.{RequestsAgree, finish_all};
ghost use Rattle.part_moves.specs.Texts.{AreAll};
ghost use Rattle.part_moves.specs.Waiting.{with_file};

use cta_site::Text;
use part_model::FileEnd;
use stage_book::StageBook;

// The file fails in each of these requests where it waits, with these errors. There are as many errors as requests.
pub(crate) fn fail_all(
    requests: &mut StageBook,
    ids: &[u32],
    mut texts: Vec<Text>,
    file: u32,
    at: u64,
)
    requires many { length texts.items ≡ length ids.now }
    requires same { AreAll (codes "deleted") texts.items }
    ensures { RequestsAgree requests.new (finish_all at (λ f. ends.Failed (codes "deleted")) (with_file file ids.now) requests.old) }
{
    for id in ids {
        let Some(text) = texts.pop() else {
            unreachable!();
        };
        requests.finish(*id, file, at, FileEnd::Failed(text));
    }
}
