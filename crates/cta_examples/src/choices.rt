// What a free drive mounts next.
ghost use Rattle.std.specs.Prelude.{◌≡◌};
ghost use Rattle.cta_examples.specs.Choices.{file_alone, file_of_fast, file_of_somebody, first_copy_done, first_copy_mounted, one_more_file, two_more_files, write_and_read};
ghost use Rattle.cta_examples.specs.Sites.{fast_requester_site, small_buffer_site, two_drive_site, two_file_site, two_writer_site};
ghost use Rattle.cta_model.specs.Answers.{answer_of};
ghost use Rattle.cta_model.specs.Legal.{IsLegal};
ghost use Rattle.cta_model.specs.declared.answers.Answer.TheVariants as answer;
ghost use Rattle.cta_model.specs.declared.asks.Ask.TheVariants as ask;
ghost use Rattle.cta_model.specs.declared.asks.Direction.TheVariants as direction;

/// At equal priority a write goes before a read.
pub fn archive_goes_before_retrieve()
    ensures legal { IsLegal small_buffer_site write_and_read }
    ensures mount { answer_of small_buffer_site write_and_read 200 (ask.Next 0) ≡ answer.Mounted 10 direction.Archive 0 }
{}

/// A second drive is idle while the one drive that may write for the virtual organisation does, and mounts then.
pub fn drive_waits_for_quota()
    ensures mounted { IsLegal two_drive_site first_copy_mounted }
    ensures idle { answer_of two_drive_site first_copy_mounted 100 (ask.Next 1) ≡ answer.Idle }
    ensures done { IsLegal two_drive_site first_copy_done }
    ensures mount { answer_of two_drive_site first_copy_done 100 (ask.Next 1) ≡ answer.Mounted 6 direction.Archive 1 }
{}

/// A second mount of a pool is warranted by twice the files that warrant the first, and not by age.
pub fn second_mount_needs_twice_as_much()
    ensures one { IsLegal two_writer_site one_more_file }
    ensures idle { answer_of two_writer_site one_more_file 1000 (ask.Next 1) ≡ answer.Idle }
    ensures two { IsLegal two_writer_site two_more_files }
    ensures mount { answer_of two_writer_site two_more_files 100 (ask.Next 1) ≡ answer.Mounted 6 direction.Archive 1 }
{}

/// One file, where two would warrant a mount, waits until it is as old as its policy says.
pub fn old_file_warrants_a_mount()
    ensures legal { IsLegal two_file_site file_alone }
    ensures young { answer_of two_file_site file_alone 109 (ask.Next 0) ≡ answer.Idle }
    ensures old { answer_of two_file_site file_alone 110 (ask.Next 0) ≡ answer.Mounted 2 direction.Archive 0 }
{}

/// A requester with a rule of its own has that rule's policy, and every other one the default policy.
pub fn requester_has_own_policy()
    ensures fast { IsLegal fast_requester_site file_of_fast }
    ensures at_once { answer_of fast_requester_site file_of_fast 100 (ask.Next 0) ≡ answer.Mounted 2 direction.Archive 0 }
    ensures other { IsLegal fast_requester_site file_of_somebody }
    ensures idle { answer_of fast_requester_site file_of_somebody 100 (ask.Next 0) ≡ answer.Idle }
{}
