// Lines, scripts and their parting at the edges.
#![tactic(auto)]

#[cfg(test)]
mod tests {
    use histories::call::Call;
    use scripts::command::{Command, read_command};
    use scripts::fault::Fault;
    use scripts::hex::{decode, write_hex};
    use scripts::parting::read_pair;
    use scripts::reader::read_script;
    use scripts::script::Script;
    use std::alloc::Global;
    use std::test::Fail;

    fn is_none(line: &[u8]) -> bool {
        read_command(line).is_none()
    }

    fn is_empty(line: &[u8]) -> bool {
        matches!(
            read_command(line),
            Some(Command::Post([]) | Command::Load([]))
        )
    }

    fn numbers(line: &[u8]) -> [u8; 3] {
        match read_command(line) {
            Some(Command::Clear { kind, first, sub }) => [kind, first, sub],
            Some(Command::Ask { resource }) => [resource, 0, 0],
            _ => [0, 0, 0],
        }
    }

    fn script(heap: Global, text: &[u8]) -> Result<Script, Fail> {
        read_script(heap, text, 0).map_err(|_| Fail::new("each line is a call"))
    }

    // The line that is refused; 0 where none is, and 1000 where no line parts the text.
    fn refused(heap: Global, text: &[u8]) -> usize {
        match read_pair(heap, text) {
            Ok(Some(_)) => 0,
            Ok(None) => 1000,
            Err(Fault::NoCall { line }) => line,
            Err(Fault::Memory) => 2000,
        }
    }

    #[test]
    fn commands(rt: HostRuntime) {
        assert!(rt; numbers(b"clear 7 031 255") == [7, 31, 255]);
        assert!(rt; numbers(b"ask 9") == [9, 0, 0]);
        assert!(rt; is_empty(b"post"));
        assert!(rt; is_empty(b"load "));
        assert!(rt; !is_none(b"post 0aFf"));
    }

    #[test]
    fn lines_that_are_no_command(rt: HostRuntime) {
        assert!(rt; is_none(b"") && is_none(b"close ") && is_none(b" close"));
        assert!(rt; is_none(b"ask") && is_none(b"ask 256") && is_none(b"ask 0001"));
        assert!(rt; is_none(b"clear 1  2 3") && is_none(b"clear 1 2") && is_none(b"clear 1 2 3 4"));
        assert!(rt; is_none(b"post 0") && is_none(b"post 0g") && is_none(b"post 0a "));
    }

    #[test]
    fn hex_both_ways(rt: HostRuntime) -> Result<(), Fail> {
        let mut bytes = Vec::new(rt.alloc());
        decode(b"00aFF1", &mut bytes)?;
        let mut text = String::new(rt.alloc());
        write_hex(bytes.as_slice(), &mut text)?;
        assert!(rt; text.as_str() == "00aff1");
        Ok(())
    }

    #[test]
    fn calls_of_a_script(rt: HostRuntime) -> Result<(), Fail> {
        let calls = script(rt.alloc(), b"post 0a0b\nload FF\nclose")?;
        assert!(rt; calls.len() == 3);
        assert!(rt; calls.list(rt.alloc())?.len() == 3);
        assert!(rt; matches!(calls.get(0), Some(Call::Post([10, 11]))));
        assert!(rt; matches!(calls.get(1), Some(Call::Load([255]))));
        assert!(rt; matches!(calls.get(2), Some(Call::Close)));
        assert!(rt; calls.get(3).is_none());
        Ok(())
    }

    #[test]
    fn refused_lines(rt: HostRuntime) {
        let heap = rt.alloc();
        assert!(rt; refused(heap, b"close\n") == 1000);
        assert!(rt; refused(heap, b"--") == 0);
        assert!(rt; refused(heap, b"close\nask 1\n--\n") == 2);
        assert!(rt; refused(heap, b"close\n--\nclose\n\nclose") == 4);
    }
}
