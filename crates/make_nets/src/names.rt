//! The names of nets.
ghost use Rattle.std.specs.Prelude.{◌≡◌, ◌<◌, ◌≤◌, ◌+◌, None, true, OnOk};
ghost use Rattle.lists.specs.Limits.{most_nets};
ghost use Rattle.net_core.specs.Inside.{IsNetName};
ghost use Rattle.net_core.specs.NetList.{nets, number_of, with_label};
ghost use Rattle.make_nets.specs.MadeNet.{names_in, outer_net, with_inner};
ghost use Rattle.make_nets.specs.Makeable.{AreNames, IsPrefix};

use crate::outer::named;
use net_core::NetMaker;
use std::alloc::{AllocError, Global};

/// Makes a net of a new name. There are fewer than 1,048,576 nets before.
pub fn add_name(maker: &mut NetMaker, name: &str) -> Result<(), AllocError>
    requires name { IsNetName name.now }
    requires is_new { number_of maker.old name.now ≡ None }
    requires room { nets maker.old < most_nets }
    ensures { OnOk result (maker.new ≡ with_label maker.old name.now true) }
{
    named(maker, name)?;
    Ok(())
}

// Makes inner nets: the prefix and 0, 1, .. are their names.
pub(crate) fn add_inner_names(
    alloc: Global,
    maker: &mut NetMaker,
    prefix: &str,
    count: u32,
) -> Result<(), AllocError>
    requires outer { maker.old ≡ outer_net (names_in maker.old) }
    requires names { AreNames (names_in maker.old) }
    requires prefix { IsPrefix (names_in maker.old) prefix.now }
    requires room { nets maker.old + count ≤ most_nets }
    ensures { OnOk result (maker.new ≡ with_inner maker.old prefix.now count) }
{
    for i in 0..count {
        let name = format!(in alloc; "{prefix}{i}")?;
        add_name(maker, name.as_str())?;
    }
    Ok(())
}
