// The states of the files of a new request.
ghost use Rattle.std.specs.Prelude.{◌≡◌, length, codes};
ghost use Rattle.part_model.specs.declared.space.FileEnd.TheVariants as ends;
ghost use Rattle.part_model.specs.Requests as called;
ghost use Rattle.part_model.specs.Requests.{RequestsAgree, finish_all};
ghost use Rattle.part_laws.specs.BookCalls.{asked_by};
ghost use Rattle.part_moves.specs.Texts.{AreAll};

use cta_site::Text;
use part_model::FileEnd;
use stage_book::StageBook;

// These files are STARTED in a request, where they wait.
pub(crate) fn start_all(requests: &mut StageBook, id: u32, files: &[u32], at: u64)
    ensures { RequestsAgree requests.new (called.start_all at (asked_by id files.now) requests.old) }
{
    for file in files {
        requests.start(id, *file, at);
    }
}

// These files are COMPLETED in a request, where they wait.
pub(crate) fn complete_all(requests: &mut StageBook, id: u32, files: &[u32], at: u64)
    ensures { RequestsAgree requests.new (finish_all at (λ f. ends.Completed) (asked_by id files.now) requests.old) }
{
    for file in files {
        requests.finish(id, *file, at, FileEnd::Completed);
    }
}

// These files fail in a request, where they wait, with these errors. There are as many errors as files.
pub(crate) fn fail_all(
    requests: &mut StageBook,
    id: u32,
    files: &[u32],
    mut texts: Vec<Text>,
    at: u64,
)
    requires many { length texts.items ≡ length files.now }
    requires same { AreAll (codes "no tape is left") texts.items }
    ensures { RequestsAgree requests.new (finish_all at (λ f. ends.Failed (codes "no tape is left")) (asked_by id files.now) requests.old) }
{
    for file in files {
        let Some(text) = texts.pop() else {
            unreachable!();
        };
        requests.finish(id, *file, at, FileEnd::Failed(text));
    }
}
