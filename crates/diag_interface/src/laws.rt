//! Laws over the definitions alone.

ghost use Rattle.diag_interface.specs.Interface.{InterfaceLaw};

/// The lines of the text are those of the recording, one for one; and one of another interface tells its time and nothing
/// else.
pub fn interface_law()
    ensures { InterfaceLaw }
{}
