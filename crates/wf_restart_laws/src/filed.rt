//! Restart files, and what is read of them.
ghost use Rattle.wf_restart_laws.specs.Filed.{GridsHaveInts, FileListsHaveInts};
ghost use Rattle.wf_restart_laws.specs.Filed.{FileListsHoldOwnPoints, RestartFramesAreWritten};
ghost use Rattle.wf_restart_laws.specs.Filed.{RestartFilesAreApart, FirstFramesMakeTheirFiles};
ghost use Rattle.wf_restart_laws.specs.Filed.{OtherCallsLeaveAFile, RestartFilesStand};
ghost use Rattle.wf_restart_laws.specs.Filed.{RestartHeadersAreRead, RestartFramesAreReadBack};
ghost use Rattle.wf_restart_laws.specs.Filed.{BeginsLeadToTheTime, DomainsAreReadBack};

/// The grids of a run that begins with numbers of 32 bits hold such numbers.
#[tactic(auto, using(crate::proofs::Ints::level_ints))]
pub fn grids_have_ints()
    ensures { GridsHaveInts }
{}

/// So do their lists in file shape.
#[tactic(auto, using(crate::proofs::Ints::file_ints))]
pub fn file_lists_have_ints()
    ensures { FileListsHaveInts }
{}

/// A level's own points of its list in file shape are its list.
#[tactic(auto, using(crate::proofs::OwnPoints::own_back))]
pub fn file_lists_hold_own_points()
    ensures { FileListsHoldOwnPoints }
{}

/// At a restart time each domain that resumed, or started before, has a restart frame that shows
/// the grids there.
#[tactic(auto, using(crate::proofs::RestartFrames::frames_are_written))]
pub fn restart_frames_are_written()
    ensures { RestartFramesAreWritten }
{}

/// No other frame of a run has the name of its file.
pub fn restart_files_are_apart()
    ensures { RestartFilesAreApart }
{}

/// The calls of a frame that is the first in its file leave there a header, with one record, and
/// the frame's bytes.
#[tactic(auto, using(crate::proofs::StoreFiles::made))]
pub fn first_frames_make_their_files()
    ensures { FirstFramesMakeTheirFiles }
{}

/// Calls on other files leave a file as it is.
#[tactic(auto, using(crate::proofs::StoreFiles::others))]
pub fn other_calls_leave_a_file()
    ensures { OtherCallsLeaveAFile }
{}

/// When a run has ended each restart file holds its frame.
#[tactic(auto, using(crate::proofs::RestartFiles::files_stand))]
pub fn restart_files_stand()
    ensures { RestartFilesStand }
{}

/// The header of a restart file is read again.
pub fn restart_headers_are_read()
    ensures { RestartHeadersAreRead }
{}

/// So are its time, and each level that it holds.
pub fn restart_frames_are_read_back()
    ensures { RestartFramesAreReadBack }
{}

/// The start and the steps that it tells lead to the restart time.
pub fn begins_lead_to_the_time()
    ensures { BeginsLeadToTheTime }
{}

/// Each domain is read to what it begins with in the run that goes on.
pub fn domains_are_read_back()
    ensures { DomainsAreReadBack }
{}
