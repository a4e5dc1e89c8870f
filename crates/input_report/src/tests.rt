//! Sources in memory and what is told of them.
ghost use Rattle.std.specs.Prelude.{◌≤◌};

use crate::{Status, check_source, scan_source};
use importer::{How, InputFault};
use query_meaning::{Expr, Literal, Pick, Rel, Test};
use std::alloc::{AllocError, Global};
use std::test::Fail;
use vast_io::{MemSink, MemSource};
use vast_value::{Bytes, Elem, Transport, Value};
use zeek_log::ZeekFault;

// Ports of an unknown transport, with one, and unset, by each protocol and by none. The last address is not as it is written.
const CONN: &[u8] =
    b"#path\tc\n#fields\ta\tb\tproto\th\n#types\tport\tport\tenum\taddr\n53\t8/tcp\tudp\t1.2.3.4\n53\t-\ttcp\t1.2.3.4\n3\t53\ticmp\t1.2.3.4\n53\t53\t-\t1.2.3.4\n53\t53\ttls\t1.2.3.4\n053\t53\tudp\t0::1\n";

// The second row is wrong.
const WRONG: &[u8] = b"#path\td\n#fields\tn\n#types\tcount\n1\nx\n3\n";

fn source(alloc: Global, bytes: &[u8], piece: u32, failing: u64) -> Result<MemSource, AllocError>
    requires { 1 ≤ piece }
{
    let mut copy = Bytes::new(alloc);
    copy.append(bytes)?;
    Ok(MemSource::new(copy, piece, vec![in alloc; failing]?))
}

// Some port has this number and transport.
fn port(number: u16, over: Transport) -> Expr {
    Expr::Test(Test {
        pick: Pick::OfKind(Elem::Port),
        rel: Rel::Eq,
        literal: Literal::Of(Value::Port { number, over }),
    })
}

#[test]
fn ports_are_matched_and_written_with_their_transport(rt: HostRuntime) -> Result<(), Fail> {
    let rows: [(u16, Transport, &[u8]); 5] = [
        (
            53,
            Transport::Udp,
            b"c\t53/udp\t8/tcp\tudp\t1.2.3.4\nc\t53/udp\t53/udp\tudp\t::1\n",
        ),
        (53, Transport::Tcp, b"c\t53/tcp\t-\ttcp\t1.2.3.4\n"),
        (
            3,
            Transport::Unknown,
            b"c\t3/icmp\t53/icmp\ticmp\t1.2.3.4\n",
        ),
        (8, Transport::Udp, b""),
        (8, Transport::Unknown, b"c\t53/udp\t8/tcp\tudp\t1.2.3.4\n"),
    ];
    for (number, over, text) in rows {
        for piece in [1u32, 1000] {
            let mut sink = MemSink::new(rt.alloc(), 300, 1000, Vec::new(rt.alloc()))?;
            let from = source(rt.alloc(), CONN, piece, 1000)?;
            let (status, end) = scan_source(
                rt.alloc(),
                Bytes::new(rt.alloc()),
                &port(number, over),
                from,
                &mut sink,
            );
            assert_eq!(rt; status, Status::Done);
            assert_eq!(rt; end.how, How::Done);
            assert_eq!(rt; sink.bytes(), text);
        }
    }
    Ok(())
}

#[test]
fn an_end_tells_how_its_source_went(rt: HostRuntime) -> Result<(), Fail> {
    let fault = InputFault::Line {
        line: 5,
        column: 1,
        what: ZeekFault::BadCell,
    };
    let rows: [(u64, u64, Status, How, &[u8]); 3] = [
        (
            1000,
            1000,
            Status::InputFault,
            How::Fault(fault),
            b"layout d columns 1 rows 1\nend fault line 5 column 1 BadCell\n",
        ),
        (
            20,
            1000,
            Status::ReadFault,
            How::ReadFault,
            b"end read fault\n",
        ),
        (
            1000,
            1,
            Status::WriteFault,
            How::Fault(fault),
            b"layout d col",
        ),
    ];
    for (read, write, status, how, text) in rows {
        let fails = vec![in rt.alloc(); write]?;
        let mut sink = MemSink::new(rt.alloc(), 100, 12, fails)?;
        let from = source(rt.alloc(), WRONG, 1, read)?;
        let (ended, end) = check_source(rt.alloc(), Bytes::new(rt.alloc()), from, &mut sink);
        assert_eq!(rt; ended, status);
        assert_eq!(rt; end.how, how);
        assert_eq!(rt; sink.bytes(), text);
    }
    Ok(())
}
