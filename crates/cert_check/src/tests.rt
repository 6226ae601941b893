//! Worked rows: images, certificates and what is answered of them.
use crate::{Refused, Rule, check};
use board_table::{Access, Board, Core};
use std::alloc::Global;

const BOARD: Board = Board {
    budget: 2000,
    core: Core {
        move_: 1,
        alu: 1,
        one: 1,
        push: 2,
        call: 3,
        jump: 2,
    },
    access: Access {
        fetch: 2,
        sram_read: 1,
        sram_write: 1,
        fram_read: 2,
        fram_write: 3,
        port_read: 2,
        port_write: 2,
    },
};

// It puts 7 and ends.
const SEVEN: &[u8] =
    b"@1800\n01 00 24 80 00 80\n@8000\n92 93 00 18 04 20 11 42 04 18 10 42 02 18 A2 42\n06 0F 82 41 04 18 B2 40 24 80 02 18 92 43 00 18\n32 D0 10 00 82 43 00 18 3F 40 07 00 82 4F 02 0F\n0F 43 82 4F 04 0F\n@FFFE\n00 80\nq\n";

// It calls a function that doubles a word.
const DOUBLE: &[u8] =
    b"@1800\n01 00 24 80 00 80\n@8000\n92 93 00 18 04 20 11 42 04 18 10 42 02 18 A2 42\n06 0F 82 41 04 18 B2 40 24 80 02 18 92 43 00 18\n32 D0 10 00 82 43 00 18 2F 42 82 4F 02 44 B0 12\n48 80 1F 42 00 44 82 4F 00 1C 1F 42 00 1C 82 4F\n02 0F 0F 43 82 4F 04 0F 1F 42 02 44 1E 42 02 44\n0F 5E 82 4F 04 44 1F 42 04 44 82 4F 00 44 30 41\n@FFFE\n00 80\nq\n";

// What is answered of texts that are well formed.
fn answer(alloc: Global, image: &[u8], certificate: &[u8]) -> Option<Result<(), Refused>> {
    let Ok(image) = ti_txt::read(alloc, image) else {
        return None;
    };
    let Ok(certificate) = certificate::read(alloc, certificate) else {
        return None;
    };
    Some(check(alloc, &image, &certificate, &BOARD))
}

fn breaks(rule: Rule, address: u16, left: i128, right: i128) -> Option<Result<(), Refused>> {
    Some(Err(Refused::Rule {
        rule,
        address,
        left,
        right,
    }))
}

#[test]
fn costs_are_exact(rt: HostRuntime) {
    let enough = b"schematic-cert 1\nbudget 2000\nF 8012 8036 1 split\nS 8012 1 0 55\nend\n";
    let less = b"schematic-cert 1\nbudget 2000\nF 8012 8036 1 split\nS 8012 1 0 54\nend\n";
    let limit = breaks(Rule::Limit, 0x8032, 55, 54);
    assert_eq!(rt; answer(rt.alloc(), SEVEN, enough), Some(Ok(())));
    assert_eq!(rt; answer(rt.alloc(), SEVEN, less), limit);
}

#[test]
fn callees_are_swept(rt: HostRuntime) {
    let enough =
        b"schematic-cert 1\nbudget 2000\nF 8012 8048 2 split\nF 8048 8060 1 flat 45 4400-4400,4404-4404\nS 8012 1 0 166\nend\n";
    let less =
        b"schematic-cert 1\nbudget 2000\nF 8012 8048 2 split\nF 8048 8060 1 flat 44 4400-4400,4404-4404\nS 8012 1 0 166\nend\n";
    let limit = breaks(Rule::Limit, 0x805E, 45, 44);
    assert_eq!(rt; answer(rt.alloc(), DOUBLE, enough), Some(Ok(())));
    assert_eq!(rt; answer(rt.alloc(), DOUBLE, less), limit);
}
