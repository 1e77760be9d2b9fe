// Words as a shell hands them over.
use crate::{Mode, WordsFault, mode};
use std::alloc::Global;
use std::test::Fail;

fn asked(alloc: Global, words: &[&str]) -> Result<Result<Mode, WordsFault>, Fail> {
    let mut list = Vec::new(alloc);
    for word in words {
        list.push(word.to_string(alloc)?)?;
    }
    Ok(mode(alloc, &list))
}

#[test]
fn each_form_has_its_mode(rt: HostRuntime) -> Result<(), Fail> {
    let forms: [(&[&str], Mode); 7] = [
        (&[], Mode::Plain),
        (&["--csv"], Mode::Csv),
        (&["--export"], Mode::Export),
        (&["--work", "1"], Mode::Work(1)),
        (&["--work=1"], Mode::Work(1)),
        (&["--work", "20000"], Mode::Work(20_000)),
        (&["--work=20000"], Mode::Work(20_000)),
    ];
    for (words, wanted) in forms {
        assert_eq!(rt; asked(rt.alloc(), words)?, Ok(wanted), "at {words:?}");
    }
    Ok(())
}

#[test]
fn all_other_words_are_usage(rt: HostRuntime) -> Result<(), Fail> {
    let lists: [&[&str]; 24] = [
        &["--csv", "--export"],
        &["--csv", "--csv"],
        &["--export", "--csv"],
        &["--work", "1", "--csv"],
        &["--work=1", "--csv"],
        &["--work", "0"],
        &["--work=0"],
        &["--work", "20001"],
        &["--work", "01"],
        &["--work=+1"],
        &["--work", "-1"],
        &["--work", ""],
        &["--work="],
        &["--work"],
        &["--"],
        &["--", "--csv"],
        &["--csv=x"],
        &["--csv="],
        &["--help"],
        &["-h"],
        &["-"],
        &[""],
        &["csv"],
        &["--cs"],
    ];
    for words in lists {
        assert_eq!(rt;
            asked(rt.alloc(), words)?,
            Err(WordsFault::Usage),
            "at {words:?}"
        );
    }
    Ok(())
}
