//! One list of calls.
use super::replay;
use crate::events::{Call, Reply};
use crate::policies::Policies;
use crate::refusal::Refusal;
use bytecode::instr::Instr;
use dataflow::first_in::FirstIn;
use dataflow::highest::Highest;
use std::test::Fail;

/// LIT 2, LIT 3, ADD, STORE 0 and HALT over one local.
const SUM: [u8; 36] = [
    1, 1, 0, 5, 2, 0, 0, 0, 0, 2, 2, 0, 0, 0, 0, 3, 9, 0, 0, 0, 0, 0, 8, 0, 0, 0, 0, 0, 1, 0, 0, 0,
    0, 0, 0, 34,
];

/// Whether a reply is that the file was written.
fn writes(reply: &Reply, file: &[u8]) -> bool {
    match reply {
        Reply::Written { length, bytes, .. } => *length == file.len() && bytes.starts_with(file),
        _ => false,
    }
}

#[test]
fn each_call_has_its_reply(rt: HostRuntime) -> Result<(), Fail> {
    let calls = [
        Call::Open,
        Call::Load(&SUM),
        Call::Open,
        Call::Propose {
            depth: 2,
            place: 3,
            instr: Instr::Pop,
        },
        Call::Tidy { depth: 1 },
        Call::Keep { depth: 0 },
        Call::Abandon { depth: 1 },
        Call::WriteOut { room: 36 },
    ];
    let mut policies = Policies {
        types: FirstIn::new(),
        constants: Highest::new(),
        lives: FirstIn::new(),
    };
    let mut replies = [Reply::Kept; 9];
    assert!(rt; replay(&calls, &mut policies, &mut replies[..7]).is_err());
    assert!(rt; replay(&calls, &mut policies, &mut replies).is_ok());
    assert!(rt; matches!(replies[0], Reply::Refused(Refusal::NoUnit)));
    assert!(rt; matches!(replies[1], Reply::Loaded));
    assert!(rt; matches!(replies[2], Reply::Opened(1)));
    assert!(rt; matches!(replies[3], Reply::Refused(Refusal::NotInnermost)));
    assert!(rt; matches!(replies[4], Reply::Tidied(2)));
    assert!(rt;
        matches!(
            replies[5],
            Reply::Returned {
                refusal: Refusal::NotInnermost,
                depth: 0
            }
        )
    );
    assert!(rt; matches!(replies[6], Reply::Abandoned));
    assert!(rt; writes(&replies[7], &SUM));
    assert!(rt; matches!(replies[8], Reply::Kept));
    Ok(())
}
