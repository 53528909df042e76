use crate::script::{HEAD, Meant, bytes_of, outcome, read, step_meant};
use flash_script::Why;
use std::test::Fail;

#[test]
fn short_feeds(rt: HostRuntime) -> Result<(), Fail> {
    for (script, line) in [
        ("+feed 1 3", 2),
        ("+feed 1 0\n", 2),
        ("+feed 1 3\nab\n", 2),
        ("+feed 1 4\nab\n", 2),
        ("+feed 17 3\nabc", 2),
        ("+feed x 1\n\n", 2),
        ("+feed 1 18446744073709551615\n", 2),
        ("+feed 1 18446744073709551615\nabc\n", 2),
        ("+feed 1 2\nab\nrun 1", 3),
        ("+feed 1 2\nab\nfeed 1 2\nab", 3),
        ("+run 1\nfeed 1 2\n\n\n\nfeed 2 1\n", 4),
    ] {
        let bytes = bytes_of(rt.alloc(), script)?;
        assert_eq!(rt;
            outcome(rt.alloc(), &bytes)?,
            Err((line, Why::Short)),
            "{script}"
        );
    }
    Ok(())
}

#[test]
fn bad_words_of_feeds(rt: HostRuntime) -> Result<(), Fail> {
    for (script, line) in [
        ("+feed\n", 2),
        ("+feed 1\n", 2),
        ("+feed 1 2 3\n", 2),
        ("+feed 1 x 3\n", 2),
        ("+feed 1  5\nabcde\n", 2),
        ("+feed 1 5 \nabcde\n", 2),
        ("+ feed 1 0\n\n", 2),
        ("+Feed 1 0\n\n", 2),
        ("+feeds 1 0\n\n", 2),
        ("+feed 1 0\nrun 1\n", 2),
        ("+feed 1 2\nab\r\n", 2),
        ("+feed 17 3\nabcd\n", 2),
        ("+feed 1 1\n\n\n\n", 3),
        ("+feed 1 6\nrun 1\n\njump\n", 3),
        ("+step\n", 2),
        ("+step  1\n", 2),
        ("+step 1 1\n", 2),
        ("+steps 1\n", 2),
    ] {
        let bytes = bytes_of(rt.alloc(), script)?;
        assert_eq!(rt;
            outcome(rt.alloc(), &bytes)?,
            Err((line, Why::BadWord)),
            "{script}"
        );
    }
    Ok(())
}

#[test]
fn bad_numbers_of_feeds(rt: HostRuntime) -> Result<(), Fail> {
    for (script, line) in [
        ("+feed 1 \n\n", 2),
        ("+feed 1 x\n", 2),
        ("+feed 17 x\n\n", 2),
        ("+feed 1 -1\n\n", 2),
        ("+feed 1 18446744073709551616\n", 2),
        ("+feed 1 000000000000000000000\n\n", 2),
        ("+feed  0\n\n", 2),
        ("+feed x 0\n\n", 2),
        ("+feed 0 0\n\n", 2),
        ("+feed 17 3\nabc\n", 2),
        ("+feed 17 3\nabc\njump\n", 2),
        ("+feed 1 1\n\n\nfeed 16 2\n\n\n\nfeed 0 0\n\n", 4),
        ("+step \n", 2),
        ("+step 0\n", 2),
        ("+step 17\n", 2),
        ("+feed 1 7\nstep 1\n\nstep x\n", 3),
    ] {
        let bytes = bytes_of(rt.alloc(), script)?;
        assert_eq!(rt;
            outcome(rt.alloc(), &bytes)?,
            Err((line, Why::BadNumber)),
            "{script}"
        );
    }
    Ok(())
}

#[test]
fn feeds_and_turns(rt: HostRuntime) -> Result<(), Fail> {
    for (text, wanted) in [
        ("step 1\n", Meant::Turn(1)),
        ("step 00000000000000000016\n", Meant::Turn(16)),
        ("feed 1 0\n\n", Meant::Feed(1, b"".as_slice())),
        ("feed 16 3\nabc\n", Meant::Feed(16, b"abc".as_slice())),
        (
            "feed 02 00000000000000000003\n\n\n\n\n",
            Meant::Feed(2, b"\n\n\n".as_slice()),
        ),
        ("feed 3 4\n\0a\r\n\n", Meant::Feed(3, b"\0a\r\n".as_slice())),
        ("feed 4 6\nrun 1\n\n", Meant::Feed(4, b"run 1\n".as_slice())),
    ] {
        let mut bytes = bytes_of(rt.alloc(), HEAD)?;
        bytes.extend_from_slice(text.as_bytes())?;
        let Ok(script) = read(rt.alloc(), &bytes)? else {
            panic!(rt; "{text}");
        };
        assert_eq!(rt; script.steps.len(), 1);
        assert_eq!(rt; step_meant(&bytes, script.steps[0]), wanted, "{text}");
    }
    Ok(())
}

#[test]
fn one_feed_behind_another(rt: HostRuntime) -> Result<(), Fail> {
    let text = "+clock 5\nfeed 1 2\n\n\n\nfeed 2 9\nfeed 1 0\n\nstep 2\nfeed 1 0\n\nrun 1\n";
    let bytes = bytes_of(rt.alloc(), text)?;
    let Ok(script) = read(rt.alloc(), &bytes)? else {
        panic!(rt; "{text}");
    };
    let wanted = [
        Meant::Clock(5),
        Meant::Feed(1, b"\n\n".as_slice()),
        Meant::Feed(2, b"feed 1 0\n".as_slice()),
        Meant::Turn(2),
        Meant::Feed(1, b"".as_slice()),
        Meant::Run(1),
    ];
    assert_eq!(rt; script.steps.len(), wanted.len());
    for (step, wanted) in script.steps.iter().zip(wanted) {
        assert_eq!(rt; step_meant(&bytes, *step), wanted);
    }
    Ok(())
}
