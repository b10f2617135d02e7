use std::alloc::{AllocError, Global};
use std::test::Fail;
use vx_read::{Asked, ImageWord, RunWords, first_bad_word_is_one, read, words_ask_for_one_command};
use vx_words::ImageJob;

/// The words that lie between spaces.
pub fn words_of(alloc: Global, line: &str) -> Result<Vec<String>, AllocError> {
    let mut words = Vec::new(alloc);
    for word in line.split_whitespace() {
        words.push(String::from_str(alloc, word)?)?;
    }
    Ok(words)
}

#[test]
fn words_are_read(rt: HostRuntime) -> Result<(), Fail> {
    let words = words_of(
        rt.alloc(),
        "run --budget=70 --lanes 1 --frames 64 --window=1 raw:hi",
    )?;
    let all = RunWords {
        vlen: None,
        window: Some(1),
        lanes: Some(1),
        banks: None,
        bank_time: None,
        frames: Some(64),
        budget: Some(70),
        image: ImageWord::Raw("hi"),
    };
    assert_eq!(rt;
        read(words.as_slice()),
        Ok(Asked::Execute(ImageJob::Run, all))
    );
    let words = words_of(rt.alloc(), "alone --vlen=128 --budget 70 e")?;
    let all = RunWords {
        vlen: Some(128),
        window: None,
        lanes: None,
        banks: None,
        bank_time: None,
        frames: None,
        budget: Some(70),
        image: ImageWord::Elf("e"),
    };
    assert_eq!(rt;
        read(words.as_slice()),
        Ok(Asked::Execute(ImageJob::Alone, all))
    );
    let words = words_of(rt.alloc(), "dis raw:f")?;
    assert_eq!(rt; read(words.as_slice()), Ok(Asked::Dis("raw:f")));
    let words = words_of(rt.alloc(), "run --budget=5 --budget 6")?;
    assert_eq!(rt; read(words.as_slice()), Err(2));
    words_ask_for_one_command();
    first_bad_word_is_one();
    Ok(())
}
