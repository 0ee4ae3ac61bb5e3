//! Whether the names of a net can stand in a text.
ghost use Rattle.std.specs.Prelude.{◌≡◌, ◌<◌, ◌↔◌, IsTrue, true, Some};
ghost use Rattle.net_core.specs.NetList.{nets, text_of, number_of};
ghost use Rattle.net_write.specs.Plain.{IsPlainByte, IsPlainName, HasPlainNames};

use net_core::Net;

// Whether a byte may stand in a name of a text.
fn is_plain_byte(byte: u8) -> bool
    ensures { IsTrue result ↔ IsPlainByte byte }
{
    byte > b' ' && byte <= b'~' && byte != b'#' && byte != b'\\'
}

// Whether all bytes of a name may stand in a text.
fn is_plain_name(name: &str) -> bool
    ensures { IsTrue result ↔ IsPlainName name.now }
{
    name.as_bytes().iter().all(|byte| is_plain_byte(*byte))
}

// Whether a net is found by its name, which is plain.
fn is_plain_net(net: &Net, number: u32) -> bool
    requires { number < nets net.now }
    ensures { IsTrue result ↔ (number_of net.now (text_of net.now number) ≡ Some number) × IsPlainName (text_of net.now number) }
{
    let name = net.label(number);
    is_plain_name(name) && net.find(name) == Some(number)
}

/// Whether every net is named, and names have bytes from 0x21 to 0x7e without `#` and `\`. It takes no memory.
pub fn plain_names(net: &Net) -> bool
    ensures { IsTrue result ↔ HasPlainNames net.now }
{
    for number in 0..net.nets() {
        if !is_plain_net(net, number) {
            return false;
        }
    }
    true
}
