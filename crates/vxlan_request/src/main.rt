// vxlan_request: writes the request for a vxlan to standard output, as it is sent to the kernel.
#![tactic(auto)]

ghost use Rattle.std.specs.Prelude.{OnOk, codes};
ghost use Rattle.std.specs.Io.KnownBytes.{Appends};
ghost use Rattle.examples.specs.Requests.{vxlan_text};

use anyhow::Result;
use examples::vxlan_request;
use std::alloc::Global;
use std::io::{self, Write};

/// Writes the request to make `vxlan7`, of the network 42, with packets of at most 1450 bytes.
fn write_request<W: Write>(alloc: Global, out: &mut W) -> Result<()>
    ensures { OnOk result (Appends (W.contents out.old) (W.contents out.new)
        (vxlan_text (codes "vxlan7") 42 1450 1)) }
{
    let request = vxlan_request(alloc, "vxlan7", 42, 1450, 1)?;
    out.write_all(request.as_slice())?;
    Ok(())
}

fn main(rt: HostRuntime) -> Result<()> {
    write_request(rt.alloc(), &mut io::writer(&rt))
}
