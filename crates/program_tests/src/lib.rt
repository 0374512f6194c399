//! Tests of script lines and of what the program's commands make of them: each form, each fault, and its text.
#![tactic(auto)]

#[cfg(test)]
mod tests {
    use commands::encoding::{ScriptFault, encode_script};
    use commands::listing::list_feed;
    use script_parse::parse::parse;
    use std::alloc::{AllocError, Global};
    use std::process::Abort;
    use std::test::Fail;

    // What a line is, printed in its plain form, or what is wrong with it.
    fn said(heap: Global, line: &str) -> Result<String, AllocError> {
        match parse(line) {
            Ok(Some(command)) => format!(in heap; "{command}"),
            Ok(None) => String::from_str(heap, "nothing"),
            Err(fault) => format!(in heap; "{fault}"),
        }
    }

    fn says(rt: &impl Abort, heap: Global, line: &str, text: &str) -> Result<(), Fail> {
        let found = said(heap, line)?;
        assert_eq!(rt; found.as_str(), text);
        Ok(())
    }

    // Lines, each with what it says.
    fn say(rt: &impl Abort, heap: Global, lines: &[(&str, &str)]) -> Result<(), Fail> {
        for (line, text) in lines {
            says(rt, heap, line, text)?;
        }
        Ok(())
    }

    // Lines that are printed as they stand.
    fn stay(rt: &impl Abort, heap: Global, lines: &[&str]) -> Result<(), Fail> {
        for line in lines {
            says(rt, heap, line, line)?;
        }
        Ok(())
    }

    #[test]
    fn each_command_is_printed_as_it_was_read(rt: HostRuntime) -> Result<(), Fail> {
        let lines = [
            "plan fixed 10 1",
            "plan announced",
            "window 0 864000000 4 free 0",
            "window 32400000 64800000 2 bounded 100",
            "session 36000000",
            "board ladder 16",
            "board grid 4294967295",
            "add buy 1000 5",
            "take sell 1001",
            "listed",
            "open 32400000 1000 50 120 20",
            "limits static 36000000",
            "limits dynamic 36000000",
            "levels buy",
            "feed day.feed",
            "close",
        ];
        stay(&rt, rt.alloc(), &lines)
    }

    #[test]
    fn each_entry_is_printed_as_it_was_read(rt: HostRuntime) -> Result<(), Fail> {
        let lines = [
            "clock 0",
            "post 36000000 buy 0 1010",
            "leave 36000001 sell 4294967295",
            "trade 36000002 255 1011 25",
            "parameters 36000003 1000 50 120 20",
            "reference 36000004 255 1005",
            "ruling 4294967295 1003",
        ];
        stay(&rt, rt.alloc(), &lines)
    }

    #[test]
    fn blanks_and_comments_are_passed_over(rt: HostRuntime) -> Result<(), Fail> {
        let lines = [
            ("", "nothing"),
            (" \t \r", "nothing"),
            ("  # all of it", "nothing"),
            ("\tclock \t 007#noon\r", "clock 7"),
        ];
        say(&rt, rt.alloc(), &lines)
    }

    #[test]
    fn each_fault_says_what_is_wrong(rt: HostRuntime) -> Result<(), Fail> {
        let lines = [
            ("pots 1", "unknown command 'pots'"),
            ("post 1 buy 0", "PRICE is missing"),
            ("post 1", "buy or sell is missing"),
            ("post 1 bye 0 5", "'bye' is neither buy nor sell"),
            ("clock 5 x", "one word too many: 'x'"),
            ("feed", "FILE is missing"),
            ("plan maybe", "'maybe' is neither fixed nor announced"),
        ];
        say(&rt, rt.alloc(), &lines)
    }

    #[test]
    fn figures_are_digits_alone(rt: HostRuntime) -> Result<(), Fail> {
        let lines = [
            (
                "clock 12a",
                "TIME '12a' is not a whole number from 0 to 4294967295",
            ),
            (
                "clock +5",
                "TIME '+5' is not a whole number from 0 to 4294967295",
            ),
            (
                "clock -5",
                "TIME '-5' is not a whole number from 0 to 4294967295",
            ),
            (
                "clock é",
                "TIME 'é' is not a whole number from 0 to 4294967295",
            ),
            (
                "clock 4294967296",
                "TIME '4294967296' is not a whole number from 0 to 4294967295",
            ),
            (
                "trade 1 256 5 1",
                "MODE '256' is not a whole number from 0 to 255",
            ),
        ];
        say(&rt, rt.alloc(), &lines)
    }

    // The lines of the feed of a script.
    fn there_and_back(
        rt: &impl Abort,
        heap: Global,
        script: &str,
        lines: &str,
    ) -> Result<(), Fail> {
        let Ok(encoded) = encode_script(heap, script) else {
            return Err(Fail::new("the script has no feed"));
        };
        let listing = list_feed(heap, encoded.feed.as_slice())?;
        assert!(rt; listing.whole);
        assert_eq!(rt; listing.text.as_str(), lines);
        Ok(())
    }

    #[test]
    fn what_is_encoded_is_listed(rt: HostRuntime) -> Result<(), Fail> {
        let heap = rt.alloc();
        there_and_back(&rt, heap, "", "# 0 records, 0 bytes\n")?;
        there_and_back(
            &rt,
            heap,
            "listed\r\nclock 5",
            "clock 5\n# 1 record, 5 bytes\n",
        )?;
        there_and_back(
            &rt,
            heap,
            "post 1 sell 2 3 # there\n\nruling 4 5\n",
            "post 1 sell 2 3\nruling 4 5\n# 2 records, 17 bytes\n",
        )
    }

    // The line and the text of a script's fault.
    fn fails(rt: &impl Abort, heap: Global, script: &str, text: &str) -> Result<(), Fail> {
        let Err(ScriptFault { line, flaw }) = encode_script(heap, script) else {
            return Err(Fail::new("the script has a feed"));
        };
        let found = format!(in heap; "{line}: {flaw}")?;
        assert_eq!(rt; found.as_str(), text);
        Ok(())
    }

    #[test]
    fn a_script_fails_at_its_first_bad_line(rt: HostRuntime) -> Result<(), Fail> {
        let heap = rt.alloc();
        fails(
            &rt,
            heap,
            "clock 5\n\nclock\nclock 1073741824",
            "3: TIME is missing",
        )?;
        fails(
            &rt,
            heap,
            "clock 1073741823\nclock 1073741824\nclock",
            "2: a figure is too wide for a feed: the greatest TIME, PRICE, SP, L, UR and LR is 1073741823, QUANTITY 16777215, MODE 3, SESSION 7",
        )
    }

    #[test]
    fn a_fault_ends_the_listing(rt: HostRuntime) -> Result<(), Fail> {
        let listing = list_feed(rt.alloc(), &[0, 0, 0, 0, 0, 255])?;
        assert!(rt; !listing.whole);
        assert_eq!(rt;
            listing.text.as_str(),
            "clock 0\nrecord 2 bit 40 refused 15\n"
        );
        Ok(())
    }
}
