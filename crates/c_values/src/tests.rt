use crate::{BinaryOp, Ty, UnaryOp, binary, converted, unary};

// Each operator at the ends of its types, worked out by hand from C11 6.5 with a two's complement of sixteen bits.
#[test]
fn operators_at_the_ends_of_their_types(rt: HostRuntime) {
    let rows = [
        (Ty::I16, Ty::I16, BinaryOp::Mul, 300, 300, Ok(24464)),
        (Ty::U16, Ty::U16, BinaryOp::Mul, 65535, 65535, Ok(1)),
        (Ty::I16, Ty::I16, BinaryOp::Div, 32768, 65535, Ok(32768)),
        (Ty::I16, Ty::I16, BinaryOp::Div, 65529, 2, Ok(65533)),
        (Ty::U16, Ty::U16, BinaryOp::Div, 65529, 2, Ok(32764)),
        (Ty::U16, Ty::U16, BinaryOp::Div, 7, 0, Err(1)),
        (Ty::I16, Ty::I16, BinaryOp::Rem, 32768, 65535, Ok(0)),
        (Ty::I16, Ty::I16, BinaryOp::Rem, 65529, 2, Ok(65535)),
        (Ty::U16, Ty::U16, BinaryOp::Rem, 65535, 32768, Ok(32767)),
        (Ty::I16, Ty::I16, BinaryOp::Rem, 7, 0, Err(1)),
        (Ty::I16, Ty::I16, BinaryOp::Add, 32767, 1, Ok(32768)),
        (Ty::U16, Ty::U16, BinaryOp::Add, 65535, 1, Ok(0)),
        (Ty::I16, Ty::I16, BinaryOp::Sub, 32768, 1, Ok(32767)),
        (Ty::U16, Ty::U16, BinaryOp::Sub, 0, 1, Ok(65535)),
        (Ty::I16, Ty::I16, BinaryOp::Shl, 1, 15, Ok(32768)),
        (Ty::U16, Ty::I16, BinaryOp::Shl, 65535, 15, Ok(32768)),
        (Ty::I16, Ty::I16, BinaryOp::Shl, 1, 16, Err(3)),
        (Ty::I16, Ty::I16, BinaryOp::Shl, 1, 65535, Err(3)),
        (Ty::I16, Ty::I16, BinaryOp::Shr, 65535, 1, Ok(65535)),
        (Ty::I16, Ty::I16, BinaryOp::Shr, 32768, 15, Ok(65535)),
        (Ty::U16, Ty::I16, BinaryOp::Shr, 65535, 15, Ok(1)),
        (Ty::U16, Ty::U16, BinaryOp::Shr, 1, 65535, Err(3)),
        (Ty::I16, Ty::I16, BinaryOp::Less, 65535, 0, Ok(1)),
        (Ty::U16, Ty::U16, BinaryOp::Less, 65535, 0, Ok(0)),
        (Ty::I16, Ty::I16, BinaryOp::Greater, 32767, 32768, Ok(1)),
        (Ty::U16, Ty::U16, BinaryOp::Greater, 32767, 32768, Ok(0)),
        (Ty::I16, Ty::I16, BinaryOp::LessEq, 32768, 32767, Ok(1)),
        (Ty::U16, Ty::U16, BinaryOp::LessEq, 6, 5, Ok(0)),
        (Ty::I16, Ty::I16, BinaryOp::GreaterEq, 5, 5, Ok(1)),
        (Ty::I16, Ty::I16, BinaryOp::GreaterEq, 32768, 32767, Ok(0)),
        (Ty::I16, Ty::I16, BinaryOp::Equal, 65535, 65535, Ok(1)),
        (Ty::U16, Ty::U16, BinaryOp::NotEqual, 32768, 32767, Ok(1)),
        (Ty::I16, Ty::I16, BinaryOp::BitAnd, 65535, 32768, Ok(32768)),
        (Ty::I16, Ty::I16, BinaryOp::BitXor, 65535, 255, Ok(65280)),
        (Ty::U16, Ty::U16, BinaryOp::BitOr, 32768, 32767, Ok(65535)),
        (Ty::I16, Ty::I16, BinaryOp::And, 1, 32768, Ok(1)),
        (Ty::I16, Ty::I16, BinaryOp::And, 0, 65535, Ok(0)),
        (Ty::I16, Ty::I16, BinaryOp::Or, 0, 32768, Ok(1)),
        (Ty::I16, Ty::I16, BinaryOp::Or, 0, 0, Ok(0)),
    ];
    for (ty, by, op, x, y, expected) in rows {
        assert_eq!(rt; binary(ty, by, op, x, y), expected);
    }
    let rows = [
        (Ty::I16, UnaryOp::Plus, 32768, 32768),
        (Ty::I16, UnaryOp::Minus, 32768, 32768),
        (Ty::U16, UnaryOp::Minus, 1, 65535),
        (Ty::I16, UnaryOp::Inv, 32767, 32768),
        (Ty::U16, UnaryOp::Inv, 0, 65535),
        (Ty::I16, UnaryOp::Not, 7, 0),
        (Ty::U16, UnaryOp::Not, 0, 1),
    ];
    for (ty, op, word, expected) in rows {
        assert_eq!(rt; unary(ty, op, word), expected);
    }
    let rows = [
        (Ty::U8, Ty::I16, 300, 44),
        (Ty::U8, Ty::I8, 65408, 128),
        (Ty::I8, Ty::I16, 127, 127),
        (Ty::I8, Ty::I16, 200, 65480),
        (Ty::I8, Ty::U16, 65535, 65535),
        (Ty::I16, Ty::I8, 65480, 65480),
        (Ty::I16, Ty::U8, 255, 255),
        (Ty::U16, Ty::I8, 65535, 65535),
    ];
    for (to, from, word, expected) in rows {
        assert_eq!(rt; converted(to, from, word), expected);
    }
}
