// A step on lent parts: refusals, rule 1, the rules, and what goes out.
ghost use Rattle.std.specs.Prelude.{◌≡◌, length};
ghost use Rattle.table.specs.Table.{Sized, table_of};
ghost use Rattle.head.specs.Step.{HasRoom, Steps, behind_tag, refusal, refusal_but1, switch_of, written};
ghost use Rattle.rules.specs.Verdict.{sending_of};

use crate::causes::{check_frame, check_switch};
use frame::Frame;
use refusal::Refusal;
use rules::masks::has_port;
use rules::{Report, Setup, Verdict, nonce_after, rule1_in, rules_in, sending_of};

// What stands behind the tag: a host's frame has none yet, and a tagged one gets another.
fn behind_tag(host: bool) -> usize
    ensures { result ≡ behind_tag host }
{
    if host { Frame::TYPE } else { Frame::OLD_TYPE }
}

// After a sending verdict the output holds the tagged frame, after a drop it is unchanged.
fn write(host: bool, frame: &[u8], v: Verdict, out: &mut [u8])
    requires { HasRoom host (length frame.now) (length out.old) }
    ensures { out.new ≡ written host frame.now (sending_of v) out.old }
{
    if let Some(s) = sending_of(v) {
        frame::write_tagged(frame, behind_tag(host), s.header, out);
    }
}

// A step without refusal 1, for a switch and a filter that are known to be well-formed.
pub fn step_on(
    s: Setup,
    nonce: &mut u32,
    addresses: &mut [u64],
    ports: &mut [u8],
    hops: &mut [u8],
    filter: &mut [u8],
    port: u8,
    frame: &[u8],
    out: &mut [u8],
) -> Result<Report, Refusal>
    requires { Sized (table_of addresses.old ports.old hops.old) }
    ensures steps { Steps (refusal_but1 s port frame.now (length out.old)) (switch_of s nonce.old (table_of addresses.old ports.old hops.old)) filter.old port frame.now out.old result (switch_of s nonce.new (table_of addresses.new ports.new hops.new)) filter.new out.new }
    ensures sized { Sized (table_of addresses.new ports.new hops.new) }
{
    check_frame(s, port, frame, out.len())?;
    let a = rule1_in(s, *nonce, addresses, ports, hops, port, frame);
    let report = rules_in(s, addresses, ports, hops, filter, a);
    write(has_port(s.host, port), frame, report.verdict, out);
    *nonce = nonce_after(s, *nonce, port);
    Ok(report)
}

// A step: refusal 1, then the step without it.
#[tactic(auto, using(crate::proofs::Refusals::passed_1))]
pub fn step_in(
    s: Setup,
    nonce: &mut u32,
    addresses: &mut [u64],
    ports: &mut [u8],
    hops: &mut [u8],
    filter: &mut [u8],
    port: u8,
    frame: &[u8],
    out: &mut [u8],
) -> Result<Report, Refusal>
    requires { Sized (table_of addresses.old ports.old hops.old) }
    ensures steps { Steps (refusal (switch_of s nonce.old (table_of addresses.old ports.old hops.old)) filter.old port frame.now (length out.old)) (switch_of s nonce.old (table_of addresses.old ports.old hops.old)) filter.old port frame.now out.old result (switch_of s nonce.new (table_of addresses.new ports.new hops.new)) filter.new out.new }
    ensures sized { Sized (table_of addresses.new ports.new hops.new) }
{
    check_switch(s, *nonce, addresses, ports, hops, filter)?;
    step_on(s, nonce, addresses, ports, hops, filter, port, frame, out)
}
