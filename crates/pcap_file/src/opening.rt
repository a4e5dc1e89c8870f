//! The file head.
ghost use Rattle.std.specs.Prelude.{◌≡◌, ◌≤◌, Ok, length, max, IfOk, IfErr, false};
ghost use Rattle.source_block.specs.Holding.{most_bytes};
ghost use Rattle.source_block.specs.Taking.{Takes};
ghost use Rattle.pcap_file.specs.Heads.{head_of, has_head};
ghost use Rattle.pcap_file.specs.Reading.{most_kept};
ghost use Rattle.pcap_file.specs.Records.{records, cut_off, Ends, CountsBy};

use crate::end::{CaptureFault, PcapEnd};
use crate::head::{FileHead, head_of};
use crate::record::end_of;
use source_block::{Block, Stop, Took};
use vast_io::Source;

/// Takes the file head, whose bytes stay held.
pub fn whole_head<S: Source>(source: &mut S, block: &mut Block) -> Result<FileHead, PcapEnd>
    ensures takes { Takes block.old block.new (S.left source.old) (S.left source.new) }
    ensures whole { IfOk result (λ head. (24 ≤ length block.new.bytes) × (head_of block.new.bytes ≡ Ok head)) }
    ensures ends { IfErr result (λ e. Ends records block.new.bytes (S.left source.new) block.new.taken e) }
    ensures none { IfErr result (λ e. has_head block.new.bytes ≡ false) }
    ensures counts { CountsBy result (S.faults source.old) (S.faults source.new) }
    ensures bound { block.new.taken ≤ most_bytes }
    ensures kept { block.new.kept ≤ max block.old.kept most_kept }
{
    match block.fill(source, 24)? {
        Took::Enough => head_of(block.as_slice()),
        Took::Stopped(stop) => Err(end_of_head(stop, block.as_slice().len() as u64)),
    }
}

/// The end where no more bytes come of a file head than so many.
fn end_of_head(stop: Stop, count: u64) -> PcapEnd
    ensures { result ≡ cut_off stop count CaptureFault.ShortHead }
{
    if stop == Stop::AtEnd {
        return PcapEnd::Fault {
            offset: count,
            what: CaptureFault::ShortHead,
        };
    }
    end_of(stop)
}
