//! What a programmer sees of figures and records: their texts by Debug, under the names that the types have for a reader, and the
//! numbers of sessions. No contract speaks of these.
#![tactic(auto)]

#[cfg(test)]
mod tests {
    use board::Level;
    use entry::windows::Bounding;
    use ladder::records::{BuyLevel, LevelRecord, SellLevel};
    use plan::Session;
    use rules::figures::{DaysLeft, Forerunner, Forerunners, Marks};
    use std::test::Fail;

    const LEVEL: Level = Level {
        price: 7,
        orders: 1,
        since: 2,
    };

    #[test]
    fn records_of_a_side(rt: HostRuntime) -> Result<(), Fail> {
        let buy = format!(in rt.alloc(); "{:?}", BuyLevel::hold(LEVEL))?;
        assert_eq!(rt;
            buy.as_str(),
            "BuyLevel(Level { price: 7, orders: 1, since: 2 })"
        );
        let sell = format!(in rt.alloc(); "{:?}", SellLevel::hold(LEVEL))?;
        assert_eq!(rt;
            sell.as_str(),
            "SellLevel(Level { price: 7, orders: 1, since: 2 })"
        );
        assert_eq!(rt; BuyLevel::hold(LEVEL).get_level(), LEVEL);
        assert_eq!(rt; SellLevel::hold(LEVEL).get_level(), LEVEL);
        Ok(())
    }

    #[test]
    fn figures_of_sides_and_directions(rt: HostRuntime) -> Result<(), Fail> {
        let marks = Marks {
            upward: true,
            downward: false,
        };
        let text = format!(in rt.alloc(); "{marks:?}")?;
        assert_eq!(rt; text.as_str(), "Marks { upward: true, downward: false }");
        let days = DaysLeft {
            upward: 2,
            downward: 0,
        };
        let text = format!(in rt.alloc(); "{days:?}")?;
        assert_eq!(rt; text.as_str(), "DaysLeft { upward: 2, downward: 0 }");
        let forerunners = Forerunners {
            buy: None,
            sell: Some(Forerunner {
                price: 7,
                since: 2,
                life: 3,
            }),
        };
        let text = format!(in rt.alloc(); "{forerunners:?}")?;
        assert_eq!(rt;
            text.as_str(),
            "Forerunners { buy: None, sell: Some(Forerunner { price: 7, since: 2, life: 3 }) }"
        );
        Ok(())
    }

    #[test]
    fn windows_and_sessions(rt: HostRuntime) -> Result<(), Fail> {
        let text = format!(in rt.alloc(); "{} {}", Bounding::Free, Bounding::Bounded)?;
        assert_eq!(rt; text.as_str(), "free bounded");
        assert_eq!(rt; Session::Morning as u8, 0);
        assert_eq!(rt; Session::Weekend as u8, 3);
        assert_eq!(rt; u8::from(Session::Weekend), 4);
        Ok(())
    }
}
