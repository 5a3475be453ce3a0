// What holds of the definitions.
ghost use Rattle.wse_txn.specs.Laws.{CommandIsWhole, ImagesStandForOne};

/// An image stands for one state, whatever the locks, or it is no store, and that in one place.
pub fn an_image_stands_for_one_state()
    ensures { ImagesStandForOne }
{}

/// A command is on the disk whole or not at all: from the start of `seal` up to the end of `close`, where one of the calls
/// fails too, a crash leaves a disk that stands for the state before the command or for the one after it.
pub fn a_command_is_whole()
    ensures { CommandIsWhole }
{}
