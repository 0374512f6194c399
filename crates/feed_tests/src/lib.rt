//! Tests of the feed: worked records, smallest and largest figures, every truncation, every flipped bit, the longest feed.
#![tactic(auto)]

#[cfg(test)]
mod tests {
    use entry::refusals::{Place, Refusal};
    use entry::{Entry, Params, Side};
    use feed::reader::Reader;
    use feed::record::encode;
    use feed::whole::{append, read};
    use std::alloc::Global;
    use std::process::Abort;
    use std::test::Fail;

    // The largest figure of 30 bits.
    const WIDE: u32 = 1_073_741_823;

    fn params(figure: u32) -> Params {
        Params {
            sp: figure,
            l: figure,
            ur: figure,
            lr: figure,
        }
    }

    // An entry of each kind, in the order of their codes, with these figures.
    fn each(time: u32, side: Side, mode: u8, session: u8, price: u32, quantity: u32) -> [Entry; 7] {
        [
            Entry::Clock { time },
            Entry::Post {
                time,
                side,
                mode,
                price,
            },
            Entry::Leave { time, side, price },
            Entry::Trade {
                time,
                mode,
                price,
                quantity,
            },
            Entry::Parameters {
                time,
                params: params(price),
            },
            Entry::Reference {
                time,
                session,
                price,
            },
            Entry::Ruling { time, price },
        ]
    }

    // Entries with some bits set and some not in each field.
    fn samples() -> [Entry; 7] {
        each(36_000_000, Side::Sell, 1, 2, 1_000_000, 250)
    }

    // Where each record of the samples starts, in bytes, and where the last one ends.
    const STARTS: [usize; 8] = [0, 5, 14, 23, 35, 55, 64, 72];

    // The bits of each record before its spare ones.
    const BITS: [usize; 7] = [34, 67, 65, 90, 154, 67, 64];

    fn feed_of(rt: &impl Abort, heap: Global, entries: &[Entry]) -> Vec<u8> {
        let mut feed = Vec::new(heap);
        for entry in entries {
            assert!(rt; append(&mut feed, *entry) == Ok(()));
        }
        feed
    }

    // The feed gives these entries, and then this fault or its end.
    fn gives(
        rt: &impl Abort,
        heap: Global,
        feed: &[u8],
        entries: &[Entry],
        fault: Option<Refusal>,
    ) -> Result<(), Fail> {
        let readings = read(heap, feed)?;
        assert!(rt; readings.fault == fault);
        assert!(rt; readings.entries.as_slice() == entries);
        Ok(())
    }

    #[test]
    fn worked_record(rt: HostRuntime) {
        let mut out = [0xFF; 10];
        let entry = Entry::Post {
            time: 36_000_000,
            side: Side::Buy,
            mode: 0,
            price: 1_000_000,
        };
        assert!(rt; encode(entry, &mut out) == Ok(9));
        assert_eq!(rt;
            out,
            [0x10, 0x89, 0x54, 0x40, 0x00, 0x01, 0xE8, 0x48, 0x00, 0xFF]
        );
    }

    #[test]
    fn smallest_and_largest(rt: HostRuntime) -> Result<(), Fail> {
        let heap = rt.alloc();
        for entries in [
            samples(),
            each(0, Side::Buy, 0, 0, 0, 0),
            each(WIDE, Side::Sell, 3, 7, WIDE, 16_777_215),
        ] {
            let feed = feed_of(&rt, heap, &entries);
            assert_eq!(rt; feed.len(), 72);
            gives(&rt, heap, feed.as_slice(), &entries, None)?;
        }
        Ok(())
    }

    #[test]
    fn wider_than_its_field(rt: HostRuntime) {
        let over = each(WIDE + 1, Side::Buy, 0, 0, 0, 0);
        let price = each(0, Side::Buy, 0, 0, WIDE + 1, 0);
        let code = each(0, Side::Buy, 4, 8, 0, 16_777_216);
        for (i, entry) in over
            .iter()
            .chain(price.iter())
            .chain(code.iter())
            .enumerate()
        {
            // A clock has no price; the clock, leave, parameters and ruling have no code and no quantity.
            let fits = matches!(i, 7 | 14 | 16 | 18 | 20);
            let mut out = [0xFF; 20];
            let answer = encode(*entry, &mut out).map_err(|why| why.number());
            if fits {
                assert!(rt; answer.is_ok());
            } else {
                assert!(rt; answer == Err(1));
                assert_eq!(rt; out, [0xFF; 20]);
            }
        }
    }

    #[test]
    fn output_one_byte_short(rt: HostRuntime) {
        for entry in samples() {
            let mut out = [0xFF; 20];
            let size = encode(entry, &mut out).expect(&rt, "a sample's record");
            assert!(rt; 0 < size && size <= 20);
            let mut short = [0xFF; 20];
            let answer = encode(entry, &mut short[..size - 1]).map_err(|why| why.number());
            assert!(rt; answer == Err(18));
            assert_eq!(rt; short, [0xFF; 20]);
            assert!(rt; encode(entry, &mut short[..size]) == Ok(size));
            assert_eq!(rt; short, out);
        }
    }

    #[test]
    fn every_truncation(rt: HostRuntime) -> Result<(), Fail> {
        let heap = rt.alloc();
        let entries = samples();
        let feed = feed_of(&rt, heap, &entries);
        assert!(rt; feed.len() == 72);
        for (k, (start, next)) in STARTS.iter().zip(STARTS[1..].iter()).enumerate() {
            assert!(rt; k < 7 && *next <= feed.len());
            for n in *start..*next {
                let fault = if n == *start {
                    None
                } else {
                    Some(Refusal::FeedEnds(Place {
                        number: k + 1,
                        bit: 8 * *start,
                    }))
                };
                gives(&rt, heap, &feed.as_slice()[..n], &entries[..k], fault)?;
            }
        }
        gives(&rt, heap, feed.as_slice(), &entries, None)
    }

    // A feed with one bit changed, which lies so many bits into a record of the samples.
    fn flipped(
        rt: &impl Abort,
        heap: Global,
        feed: &[u8],
        record: usize,
        bit: usize,
        entries: &[Entry],
    ) -> Result<(), Fail> {
        assert!(rt; record < 7 && bit < 160 && entries.len() == 7);
        let start = 8 * STARTS[record];
        let mut bytes = feed.to_vec(heap)?;
        if let Some(byte) = bytes.get_mut((start + bit) / 8) {
            *byte ^= 0x80 >> ((start + bit) % 8);
        }
        if bit >= BITS[record] {
            let fault = Refusal::SpareBitSet(Place {
                number: record + 1,
                bit: start.saturating_add(BITS[record]),
            });
            return gives(rt, heap, bytes.as_slice(), &entries[0..record], Some(fault));
        }
        let readings = read(heap, bytes.as_slice())?;
        if bit >= 4 {
            assert!(rt; readings.fault.is_none() && readings.entries.len() == 7);
            for (i, (got, was)) in readings.entries.iter().zip(entries.iter()).enumerate() {
                assert!(rt; (*got == *was) == (i != record));
            }
        }
        if readings.fault.is_none() {
            let again = feed_of(rt, heap, readings.entries.as_slice());
            assert!(rt; again.as_slice() == bytes.as_slice());
        }
        Ok(())
    }

    #[test]
    fn every_flipped_bit(rt: HostRuntime) -> Result<(), Fail> {
        let heap = rt.alloc();
        let entries = samples();
        let feed = feed_of(&rt, heap, &entries);
        // By number, since several tables are read at a record's number.
        for record in 0..7usize {
            for bit in 0..8 * (STARTS[record + 1] - STARTS[record]) {
                flipped(&rt, heap, feed.as_slice(), record, bit, &entries)?;
            }
        }
        Ok(())
    }

    #[test]
    fn empty_feed(rt: HostRuntime) {
        let mut reader = Reader::new();
        for _ in 0..3 {
            assert!(rt; reader.next() == Ok(None));
        }
        assert!(rt; reader.take(&[]) == Ok(()));
        assert!(rt; reader.next() == Ok(None));
    }

    #[test]
    fn a_fault_is_told_again(rt: HostRuntime) {
        let feed = [0x00, 0x89, 0x59, 0x22, 0x00, 0x70];
        let mut reader = Reader::new();
        assert!(rt; reader.take(&feed) == Ok(()));
        assert!(rt; reader.next() == Ok(Some(Entry::Clock { time: 36_005_000 })));
        for _ in 0..3 {
            let told = reader.next().map_err(|why| (why.number(), why.place()));
            let place = Place { number: 2, bit: 40 };
            assert!(rt; told == Err((15, Some(place))));
        }
    }

    #[test]
    fn longest_feed(rt: HostRuntime) -> Result<(), Fail> {
        let heap = rt.alloc();
        let ruling = Entry::Ruling { time: 1, price: 2 };
        let mut feed = Vec::new(heap);
        for _ in 0..8_192 {
            assert!(rt; append(&mut feed, ruling) == Ok(()));
        }
        assert_eq!(rt; feed.len(), 65_536);
        let readings = read(heap, feed.as_slice())?;
        assert!(rt; readings.fault.is_none());
        assert_eq!(rt; readings.entries.len(), 8_192);
        assert!(rt; append(&mut feed, ruling) == Err(Refusal::FeedTooLong.into()));
        assert_eq!(rt; Refusal::FeedTooLong.number(), 17);
        assert_eq!(rt; feed.len(), 65_536);
        feed.push(0)?;
        gives(&rt, heap, feed.as_slice(), &[], Some(Refusal::FeedTooLong))
    }
}
