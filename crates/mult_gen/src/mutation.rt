//! One changed gate.
ghost use Rattle.std.specs.Prelude.{◌≡◌, ◌<◌, ◌^◌, Some, length, slice_get};
ghost use Rattle.net_core.specs.Turned.{turned};

use net_core::Net;

/// The net in which bit `index` of the table of the gate at `position` is turned over, and nothing else. The gate exists, and
/// the bit is one of its table's. It takes no memory.
pub fn mutate(net: Net, position: u32, index: u32) -> Net
    requires { (g : _) × (slice_get net.gates position ≡ Some g) × (index < 2 ^ length g.inputs) }
    ensures { result ≡ turned net position index }
{
    let mut net = net;
    net.turn(position, index);
    net
}
