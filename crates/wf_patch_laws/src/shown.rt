//! What a patch makes of the lists that it keeps is what the function that they hold becomes.
ghost use Rattle.wf_patch_laws.specs.Shown.{ListsComputeAsTheMemory, ListsTakeAsTheMemory};
ghost use Rattle.wf_patch_laws.specs.Shown.{ListsSendAsTheMemory, ListsPostAsTheMemory};

/// A patch that computes by its lists names the same least point, and leaves lists that hold what
/// it computes of the function.
pub fn lists_compute_as_the_memory()
    ensures { ListsComputeAsTheMemory }
{}

/// A patch that takes its mail by its lists names the same least point, and leaves lists that hold
/// what it takes.
pub fn lists_take_as_the_memory()
    ensures { ListsTakeAsTheMemory }
{}

/// A message that is made of the lists has the numbers of the function that they hold.
pub fn lists_send_as_the_memory()
    ensures { ListsSendAsTheMemory }
{}

/// A piece that is made of the lists has the numbers of the function that they hold.
pub fn lists_post_as_the_memory()
    ensures { ListsPostAsTheMemory }
{}
