//! Own and fresh cells hold their numbers: in the lockstep run, in the front, and in each state.
ghost use Rattle.wf_held_laws.specs.Numbers.{OwnCellsHoldTheNumbers, StatesHoldTheNumbers};
ghost use Rattle.wf_held_laws.specs.Numbers.{StatesHoldTheGrids, StatesHoldTheFreshNumbers};
ghost use Rattle.wf_held_laws.specs.Numbers.{FrontSendsTheMessages, FrontPostsThePieces};

/// In the lockstep run each own cell holds its number before each place of the script, past an
/// overflow too.
pub fn own_cells_hold_the_numbers()
    ensures { OwnCellsHoldTheNumbers }
{}

/// In each state that a list of enabled events leads to, each own cell of a patch holds its number
/// before the patch's next place, past an overflow too.
pub fn states_hold_the_numbers()
    ensures { StatesHoldTheNumbers }
{}

/// Up to the first overflow that is the grid's number.
pub fn states_hold_the_grids()
    ensures { StatesHoldTheGrids }
{}

/// And so does each fresh cell of its memory.
pub fn states_hold_the_fresh_numbers()
    ensures { StatesHoldTheFreshNumbers }
{}

/// The numbers that a patch of the front sends at a place are those of the message.
pub fn front_sends_the_messages()
    ensures { FrontSendsTheMessages }
{}

/// The own numbers that a patch of the front has at a frame's place are those of its piece.
pub fn front_posts_the_pieces()
    ensures { FrontPostsThePieces }
{}
