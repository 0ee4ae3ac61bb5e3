//! Lines of a text whose fields are names of nets.
ghost use Rattle.std.specs.Prelude.{◌≡◌, ◌<◌, ◌++◌, ◌∷◌, All, OnOk};
ghost use Rattle.net_core.specs.NetList.{nets, text_of};
ghost use Rattle.net_write.specs.Written.{line_text, names_of};
ghost use Rattle.net_write.specs.private.Fields.{field, fields_of};

use net_core::Net;
use std::alloc::AllocError;

// Appends a space and the name of a net.
pub(crate) fn add_field(out: &mut Vec<u8>, net: &Net, number: u32) -> Result<(), AllocError>
    requires { number < nets net.now }
    ensures { OnOk result (out.new.items ≡ out.old.items ++ field (text_of net.now number)) }
{
    out.push(b' ')?;
    out.extend_from_slice(net.label(number).as_bytes())?;
    Ok(())
}

// Appends the names of nets, each behind a space.
pub(crate) fn add_fields(out: &mut Vec<u8>, net: &Net, numbers: &[u32]) -> Result<(), AllocError>
    requires { All (λ n. n < nets net.now) numbers.now }
    ensures { OnOk result (out.new.items ≡ out.old.items ++ fields_of net.now numbers.now) }
{
    for number in numbers {
        add_field(out, net, *number)?;
    }
    Ok(())
}

// Appends a line of a word and the names of nets.
pub(crate) fn add_names(
    out: &mut Vec<u8>,
    word: &[u8],
    net: &Net,
    numbers: &[u32],
) -> Result<(), AllocError>
    requires { All (λ n. n < nets net.now) numbers.now }
    ensures { OnOk result (out.new.items ≡ out.old.items ++ line_text (word.now ∷ names_of net.now numbers.now)) }
{
    out.extend_from_slice(word)?;
    add_fields(out, net, numbers)?;
    out.push(b'\n')?;
    Ok(())
}
