// The items of repacks whose file is deleted.
ghost use Rattle.std.specs.Prelude.{◌==◌, ◌&&◌};
ghost use Rattle.cta_model.specs.History.{has_number};
ghost use Rattle.part_model.specs.Repacks.{repack_in};
ghost use Rattle.repack_book.specs.NamedRepacks.{NamesAgree, repacks_of};
ghost use Rattle.caller_asks.specs.Gone.{AreGone, is_copy_to, writes_copy};

use cta_model::ItemState;
use repack_book::RepackBook;

// The items of a copy of a file that repacks are WRITING are GONE.
fn end_writers_of(repacks: &mut RepackBook, file: u32, copy: u8)
    ensures gone { AreGone (λ k g c. (g == file && c == copy) && writes_copy file copy (repack_in (repacks_of repacks.old) k)) (repacks_of repacks.old) (repacks_of repacks.new) }
    ensures names { NamesAgree repacks.new repacks.old }
{
    let mut next = repacks.first_writer(file, copy);
    while let Some(id) = next {
        repacks.set(id, file, copy, ItemState::Gone);
        next = repacks.next_writer(file, copy, id);
    }
}

// The items of the copies from 1 to `copies` of a file that repacks are WRITING are GONE.
pub(crate) fn end_writers(repacks: &mut RepackBook, file: u32, copies: u8)
    ensures gone { AreGone (λ k g c. is_copy_to file copies g c && writes_copy file c (repack_in (repacks_of repacks.old) k)) (repacks_of repacks.old) (repacks_of repacks.new) }
    ensures names { NamesAgree repacks.new repacks.old }
{
    if copies == 0 {
        return;
    }
    end_writers_of(repacks, file, copies);
    end_writers(repacks, file, copies - 1);
}

// The live items of the copies from 1 to `copies` of a file are GONE in a repack.
fn end_items(repacks: &mut RepackBook, id: u32, file: u32, copies: u8)
    ensures gone { AreGone (λ k g c. k == id && is_copy_to file copies g c) (repacks_of repacks.old) (repacks_of repacks.new) }
    ensures names { NamesAgree repacks.new repacks.old }
{
    if copies == 0 {
        return;
    }
    repacks.set(id, file, copies, ItemState::Gone);
    end_items(repacks, id, file, copies - 1);
}

// The live items of the copies from 1 to `copies` of a file are GONE in each of these repacks.
pub(crate) fn end_readers(repacks: &mut RepackBook, ids: &[u32], file: u32, copies: u8)
    ensures gone { AreGone (λ k g c. has_number k ids.now && is_copy_to file copies g c) (repacks_of repacks.old) (repacks_of repacks.new) }
    ensures names { NamesAgree repacks.new repacks.old }
{
    for id in ids {
        end_items(repacks, *id, file, copies);
    }
}
