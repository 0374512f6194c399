//! Tests of scripts that are carried out: boards and plans, and lines out of place.
#![tactic(auto)]

#[cfg(test)]
mod tests {
    use day::run::run_script;
    use std::alloc::Global;
    use std::process::Abort;
    use std::test::Fail;

    // The script prints this text, and then stops at a line for a reason, or goes to its end.
    fn prints(
        rt: &impl Abort,
        heap: Global,
        script: &str,
        text: &str,
        stop: Option<(usize, &str)>,
    ) -> Result<(), Fail> {
        let report = run_script(heap, script)?;
        assert_eq!(rt; report.text.as_str(), text);
        let stopped = report
            .stop
            .as_ref()
            .map(|stop| (stop.line, stop.why.as_str()));
        assert_eq!(rt; stopped, stop);
        Ok(())
    }

    #[test]
    fn a_ladder(rt: HostRuntime) -> Result<(), Fail> {
        prints(
            &rt,
            rt.alloc(),
            "board ladder 16 # a thin paper\nadd buy 1010 5\nadd  buy 1010 9\nadd buy 1020 7\nlevels buy\ntake buy 1020\ntake buy 1020\nlevels buy\nlevels sell\nadd sell 0 1\n",
            "board ladder 16 -> ok\nadd buy 1010 5 -> ok\nadd buy 1010 9 -> ok\nadd buy 1020 7 -> ok\nlevels buy -> 1020:1:7 1010:2:5\ntake buy 1020 -> ok\ntake buy 1020 -> refused 9\nlevels buy -> 1010:2:5\nlevels sell -> none\nadd sell 0 1 -> refused 8\n",
            None,
        )
    }

    #[test]
    fn a_grid_after_a_refused_one(rt: HostRuntime) -> Result<(), Fail> {
        prints(
            &rt,
            rt.alloc(),
            "board grid 0\nboard grid 1000\nadd sell 1255 3\nadd sell 1256 3\nboard ladder 15\nlevels sell\nboard grid 1000\nlevels sell\n",
            "board grid 0 -> refused 1\nboard grid 1000 -> ok\nadd sell 1255 3 -> ok\nadd sell 1256 3 -> refused 8\nboard ladder 15 -> refused 1\nlevels sell -> 1255:1:3\nboard grid 1000 -> ok\nlevels sell -> none\n",
            None,
        )
    }

    #[test]
    fn plans(rt: HostRuntime) -> Result<(), Fail> {
        prints(
            &rt,
            rt.alloc(),
            "plan fixed 2 1\nsession 36000000\nsession 122400000\nsession 154800000\nsession 0\nplan fixed 11 0\nsession 111600000\nplan announced\nwindow 10 20 2 free 0\nwindow 20 30 3 bounded 100\nwindow 19 21 1 free 0\nwindow 5 5 1 free 0\nsession 19\nsession 20\nsession 30\n",
            "plan fixed 2 1 -> ok\nsession 36000000 -> weekend bounded 30\nsession 122400000 -> main bounded 220\nsession 154800000 -> evening bounded 100\nsession 0 -> none\nplan fixed 11 0 -> refused 1\nsession 111600000 -> morning bounded 100\nplan announced -> ok\nwindow 10 20 2 free 0 -> ok\nwindow 20 30 3 bounded 100 -> ok\nwindow 19 21 1 free 0 -> refused 12\nwindow 5 5 1 free 0 -> refused 1\nsession 19 -> main free\nsession 20 -> evening bounded 100\nsession 30 -> none\n",
            None,
        )
    }

    #[test]
    fn out_of_place(rt: HostRuntime) -> Result<(), Fail> {
        let heap = rt.alloc();
        prints(
            &rt,
            heap,
            "\nlevels buy\n",
            "",
            Some((2, "there is no board")),
        )?;
        prints(&rt, heap, "session 5\n", "", Some((1, "there is no plan")))?;
        prints(
            &rt,
            heap,
            "plan fixed 1 0\nwindow 1 2 1 free 0\n",
            "plan fixed 1 0 -> ok\n",
            Some((2, "there is no announced plan")),
        )?;
        prints(
            &rt,
            heap,
            "board grid 1\nclock 5\n",
            "board grid 1 -> ok\n",
            Some((2, "no day is open")),
        )?;
        prints(
            &rt,
            heap,
            "listed\n",
            "",
            Some((1, "days are not built yet")),
        )?;
        prints(
            &rt,
            heap,
            "board grid 1\n# nothing\nadd bye 1 2\nlevels buy\n",
            "board grid 1 -> ok\n",
            Some((3, "'bye' is neither buy nor sell")),
        )
    }
}
