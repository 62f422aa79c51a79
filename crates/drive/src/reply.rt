// The reply's bytes, copied to the beginning of the lent reply buffer; the bytes past them stay.
ghost use Rattle.std.specs.Prelude.{◌≡◌, ◌++◌, ◌≤◌, length};
ghost use Rattle.protocol.specs.Reply.{said, reply_bytes};
ghost use Rattle.decisions.specs.Run.{sent_within, pending_within};
ghost use Rattle.drive.specs.Bytes.{splice};
ghost use Rattle.drive.specs.Reply.{sent_bytes, Sendable};

use crate::bytes;
use decisions::Transfer;
use protocol::{Content, Reply};

// A report, cut to its length. What GET CONFIGURATION says is made only here.
#[tactic(auto, unfolding(protocol::specs::Reply::said, protocol::specs::Reply::reply_bytes))]
fn send_report(report: Reply, reply: &mut [u8]) -> usize
    requires { (report.length ≤ length (said report.content)) × (report.length ≤ length reply.old) }
    ensures value { result ≡ length (reply_bytes report) }
    ensures reply { reply.new ≡ splice reply.old 0 (reply_bytes report) }
{
    let sent = report.length;
    match report.content {
        Content::Own(said) => bytes::put(reply, 0, &said[..sent]),
        Content::Configuration {
            request_type,
            start,
        } => {
            let said = features::configuration(request_type, start).bytes;
            bytes::put(reply, 0, &said[..sent]);
        }
    }
    sent
}

// The sectors that a READ sends, as the lower layer hands them out: those of the medium, then those of the pending buffer.
fn send_run(transfer: Transfer, medium: &[u8], pending: &[u8], reply: &mut [u8]) -> usize
    requires { length (sent_within transfer medium.now ++ pending_within transfer pending.now) ≤ length reply.old }
    ensures value { result ≡ length (sent_within transfer medium.now ++ pending_within transfer pending.now) }
    ensures reply { reply.new
        ≡ splice reply.old 0 (sent_within transfer medium.now ++ pending_within transfer pending.now) }
{
    let recorded = transfer.run(medium);
    let held = transfer.pending_run(pending);
    bytes::put(reply, 0, recorded);
    bytes::put(reply, recorded.len(), held);
    recorded.len() + held.len()
}

// The one or the other; how many bytes it is.
#[tactic(auto, unfolding(crate::specs::Reply::sent_bytes))]
pub(crate) fn send(
    transfer: Transfer,
    report: Reply,
    medium: &[u8],
    pending: &[u8],
    reply: &mut [u8],
) -> usize
    requires { Sendable medium.now pending.now transfer report (length reply.old) }
    ensures value { result ≡ length (sent_bytes transfer report medium.now pending.now) }
    ensures reply { reply.new ≡ splice reply.old 0 (sent_bytes transfer report medium.now pending.now) }
{
    match transfer {
        Transfer::Send { .. } => send_run(transfer, medium, pending, reply),
        Transfer::Nothing | Transfer::Gather { .. } | Transfer::Fill { .. } => {
            send_report(report, reply)
        }
    }
}
