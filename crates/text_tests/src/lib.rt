// Examples of words, names, look-ups, numbered names and stores.
#![tactic(auto)]

ghost use Rattle.std.specs.Prelude.{◌<◌};

#[cfg(test)]
mod tests {
    use classes::{Class, class_of};
    use std::test::Fail;
    use store::Store;
    use text::lookup::find;
    use text::names::Name;
    use text::numbering::Names;
    use text::words::{is_name, is_reserved, is_word, same_bytes, word_len};

    const DIGITS: [u8; 10] = *b"0123456789";

    // A name of its own for each number below 100.
    fn nth_name(i: usize) -> Result<Name, Fail>
        requires { i < 100 }
    {
        let name = Name::new(&[b'n', DIGITS[i / 10], DIGITS[i % 10]]).ok_or("no name")?;
        Ok(name)
    }

    #[test]
    fn classes_of_bytes(rt: HostRuntime) {
        assert_eq!(rt; class_of(b'q'), Class::Letter);
        assert_eq!(rt; class_of(b'\n'), Class::LineEnd);
        assert_eq!(rt; class_of(200), Class::Other);
    }

    #[test]
    fn words_stop_at_colons(rt: HostRuntime) {
        assert!(rt; is_word(b"a:b:c"));
        assert_eq!(rt; word_len(b"a:b:c", 1), 4);
        assert!(rt; !is_word(b"a::b"));
        assert_eq!(rt; word_len(b"a::b", 1), 0);
        assert_eq!(rt; word_len(b"a:", 1), 0);
        assert_eq!(rt; word_len(b"a", 7), 0);
    }

    #[test]
    fn words_have_limits(rt: HostRuntime) {
        assert!(rt; is_word(b"abcdefghijklmnopqrstuvwx"));
        assert!(rt; !is_word(b"abcdefghijklmnopqrstuvwxy"));
        assert!(rt; !is_word(b"1a"));
        assert!(rt; !is_word(b""));
        assert!(rt; is_word(b"_1.x"));
    }

    #[test]
    fn some_words_are_reserved(rt: HostRuntime) {
        assert!(rt; is_word(b"i") && is_reserved(b"i") && !is_name(b"i"));
        assert!(rt; is_name(b"I") && is_name(b"ii"));
        assert!(rt; same_bytes(b"tau", b"tau") && !same_bytes(b"tau", b"ta"));
    }

    #[test]
    fn names_tell_words(rt: HostRuntime) -> Result<(), Fail> {
        let long = Name::new(b"abcdefghijklmnopqrstuvwx").ok_or("no name")?;
        let other = Name::new(b"abcdefghijklmnopqrstuvwy").ok_or("no name")?;
        assert!(rt; long.same(&long) && !long.same(&other));
        assert!(rt; long.len() == 24 && long.byte(0) == b'a' && long.byte(23) == b'x');
        assert_eq!(rt; long.byte(24), 0);
        let short = Name::new(b"x.y").ok_or("no name")?;
        assert!(rt; short.len() == 3 && short.byte(1) == b'.');
        assert!(rt; Name::new(b"and").is_none() && Name::new(b"").is_none());
        Ok(())
    }

    #[test]
    fn find_picks_the_last(rt: HostRuntime) -> Result<(), Fail> {
        let a = nth_name(1)?;
        let b = nth_name(2)?;
        assert_eq!(rt; find(&[a, b, a, b], &a), Some(2));
        assert_eq!(rt; find(&[b, b], &a), None);
        Ok(())
    }

    #[test]
    fn names_join_up_to_the_limit(rt: HostRuntime) -> Result<(), Fail> {
        let mut table = Names::new();
        for i in 0..64 {
            assert!(rt; table.join_all(&[nth_name(i)?]).is_ok());
        }
        let first = nth_name(0)?;
        let past = nth_name(64)?;
        assert!(rt; table.len() == 64 && table.join_all(&[first, past]).is_err());
        assert!(rt; table.join_all(&[first, first]).is_ok() && table.len() == 64);
        assert_eq!(rt; table.number_of(&first), Some(0));
        assert_eq!(rt; table.number_of(&past), None);
        assert!(rt; table.get(63).is_some() && table.get(64).is_none());
        Ok(())
    }

    #[test]
    fn names_join_all_or_none(rt: HostRuntime) -> Result<(), Fail> {
        let a = nth_name(1)?;
        let b = nth_name(2)?;
        let mut table = Names::new();
        assert!(rt; table.join_all(&[b, a, b]).is_ok() && table.len() == 2);
        assert_eq!(rt; find(table.names(), &a), Some(1));
        Ok(())
    }

    #[test]
    fn stores_fill_and_empty(rt: HostRuntime) {
        let mut places = [0u8; 2];
        let mut store = Store::new(&mut places);
        assert!(rt; store.push(1).is_ok() && store.push(2).is_ok() && store.push(3).is_err());
        assert!(rt; store.count() == 2 && same_bytes(store.held(), &[1, 2]));
        assert_eq!(rt; store.take(), Some(2));
        assert_eq!(rt; store.take(), Some(1));
        assert_eq!(rt; store.take(), None);
    }
}
