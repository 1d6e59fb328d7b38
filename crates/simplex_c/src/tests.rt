//! What the C function answers and writes, with room for all of the text and with less. No crate can stand on a static library, so
//! these tests stand in it.
use crate::simplex_run;
use std::alloc::{AllocError, Global};

// A member alone proposes, notarizes, certifies and finalizes.
const FINALIZES: &str =
    r#"{"setup":{"epoch":0,"key_base":1,"members":["honest"],"term":1,"lookahead":0,"leader_timeout":1000,"certification_timeout":2000,"retry":500,"stall":null,"retention":10,"skip":null,"forward":"disabled","mailbox":16,"track":false,"handoff":false,"fetch_timeout":1000,"fetch_retry":100,"scenario":[]},"events":[{"do":"start","node":[0,0],"floor":null,"stop":null},{"do":"answer","node":[0,0],"request":[1,0],"answer":{"payload":"1111111111111111111111111111111111111111111111111111111111111111"}},{"do":"step","node":[0,0],"source":"propose","stop":null},{"do":"step","node":[0,0],"source":"batcher","stop":null},{"do":"step","node":[0,0],"source":"batcher","stop":null},{"do":"step","node":[0,0],"source":"voter","stop":null},{"do":"answer","node":[0,0],"request":[6,0],"answer":{"verdict":true}},{"do":"step","node":[0,0],"source":"certify","stop":null},{"do":"step","node":[0,0],"source":"batcher","stop":null},{"do":"step","node":[0,0],"source":"voter","stop":null}]}"#;

const FINALIZED: &str =
    "event 10 node 0.0 finalized 1 1111111111111111111111111111111111111111111111111111111111111111\n";

// What stands in the room before.
const BEFORE: u8 = 33;

// The first bytes of the text in so much room, and what stood there behind them.
fn filled(alloc: Global, text: &[u8], room: usize) -> Result<Vec<u8>, AllocError> {
    let mut all = Vec::new(alloc);
    for place in 0..room {
        all.push(text.get(place).copied().unwrap_or(BEFORE))?;
    }
    Ok(all)
}

#[test]
fn an_input_is_run(rt: HostRuntime) {
    let alloc = rt.alloc();
    let table = [
        (FINALIZES, 0u8, FINALIZED),
        ("{", 3, "bad input at 0\n"),
        (" ", 3, "bad input at 0\n"),
    ];
    for (input, status, text) in table {
        for room in [0usize, 1, 7, 15, 95, 200] {
            let mut written = vec![in alloc; BEFORE; room].expect(&rt, "room");
            let mut size = 9usize;
            let answer = simplex_run(alloc, input.as_bytes(), &mut written, &mut size);
            assert_eq!(rt; (answer, size), (status, text.len()), "{text}");
            let wanted = filled(alloc, text.as_bytes(), room).expect(&rt, "room");
            assert_eq!(rt; written, wanted, "{text}");
        }
    }
}
