//! What no clause shows: that the definitions give the standard's numbers, and that each call can be made.

ghost use Rattle.std.specs.Prelude.{◌≡◌, ◌<◌};
ghost use Rattle.vx_vstate.specs.Registers.{place_of, words_of_all, word_at};

use crate::{Avl, Setting, VState, WordFile};
use std::test::Fail;

/// e32, m2: at registers of 256 bits VLMAX is 16.
const E32_M2: u64 = 0x11;

/// e64, m2: another ratio of SEW to LMUL.
const E64_M2: u64 = 0x19;

/// e64, m4: the ratio of e32, m2.
const E64_M4: u64 = 0x1a;

const VILL: u64 = 0x8000_0000_0000_0000;

const ONES: u64 = 0xffff_ffff_ffff_ffff;

/// A word through the trait, as the crates above read it.
fn word_of<S: WordFile>(at: &Setting, file: &S, r: u8, w: u32) -> u64
    requires vlen { S.vlen file.now ≡ at.now.vlen }
    requires within { place_of at.now.vlen r w < words_of_all at.now.vlen }
    ensures { result ≡ word_at at.now.vlen (S.words file.now) r w }
{
    file.word(r, w)
}

#[test]
fn configures(rt: HostRuntime) -> Result<(), Fail> {
    let mut state = VState::new(rt.alloc(), 256)?;
    for (avl, vl) in [(0, 0), (16, 16), (17, 16), (ONES, 16)] {
        assert_eq!(rt; state.set_vl(Avl::Value(avl), E32_M2), vl);
    }
    assert_eq!(rt; state.set_vl(Avl::Keep, E64_M4), 16);
    assert_eq!(rt; state.set_vl(Avl::Value(3), E32_M2), 3);
    let mut view = state.setting(7);
    assert_eq!(rt; view.set_vl(Avl::Keep, E64_M4), 3);
    assert_eq!(rt; view.set_vl(Avl::Max, E32_M2), 16);
    assert_eq!(rt;
        (view.sew(), view.lmul_eighths(), view.vlmax(), view.scalar),
        (32, 16, 16, 7)
    );
    assert_eq!(rt; state.set_vl(Avl::Keep, E64_M2), 0);
    assert_eq!(rt; state.csr_read(0xc21), Some(VILL));
    assert!(rt; state.setting(0).is_ill());
    assert_eq!(rt; state.set_vl(Avl::Keep, E64_M4), 0);
    assert_eq!(rt; state.csr_read(0xc21), Some(VILL));
    Ok(())
}

#[test]
fn writes_control_registers(rt: HostRuntime) -> Result<(), Fail> {
    let mut state = VState::new(rt.alloc(), 512)?;
    state.set_vl(Avl::Max, 0x18);
    for (csr, written, read) in [
        (0x008, true, Some(511)),
        (0x009, true, Some(1)),
        (0x00a, true, Some(3)),
        (0x00b, false, None),
        (0x00f, true, Some(7)),
        (0xc20, false, Some(8)),
        (0xc21, false, Some(0x18)),
        (0xc22, false, Some(64)),
    ] {
        assert_eq!(rt; state.csr_write(csr, ONES), written);
        assert_eq!(rt; state.csr_read(csr), read);
    }
    assert!(rt; state.csr_write(0x00f, 4));
    assert_eq!(rt;
        (state.csr_read(0x009), state.csr_read(0x00a)),
        (Some(0), Some(2))
    );
    assert!(rt; state.csr_write(0x009, 3));
    assert_eq!(rt; state.csr_read(0x00f), Some(5));
    Ok(())
}

#[test]
fn keeps_words(rt: HostRuntime) -> Result<(), Fail> {
    let mut state = VState::new(rt.alloc(), 128)?;
    state.set_vl(Avl::Max, 0);
    state.put_word(31, 1, ONES);
    state.put_word(0, 0, 5);
    let view = state.setting(0);
    assert_eq!(rt; word_of(&view, &state, 31, 1), ONES);
    assert_eq!(rt; word_of(&view, &state, 0, 0), 5);
    state.put_words(2, 1, &[6, 7]);
    assert_eq!(rt;
        (word_of(&view, &state, 2, 1), word_of(&view, &state, 3, 0)),
        (6, 7)
    );
    assert_eq!(rt; (state.words().len(), state.vlen()), (64, 128));
    state.finish(2, true);
    state.trim(9);
    assert_eq!(rt;
        (state.vl(), state.vstart(), state.csr_read(0x009)),
        (9, 2, Some(1))
    );
    Ok(())
}
