// The command lines of the program, read into commands.
#![tactic(auto)]

mod command;
mod field;
mod line;
mod number;

pub use command::Command;
pub use line::parse;

#[cfg(test)]
mod tests {
    use super::*;
    use refusals::Refusal;

    #[test]
    fn reads(rt: HostRuntime) {
        assert_eq!(rt; parse(b"C 1 100"), Ok(Command::Course { k: 1, cells: 100 }));
        assert_eq!(rt; parse(b"C -1 0"), Ok(Command::Course { k: -1, cells: 0 }));
        assert_eq!(rt;
            parse(b"C -5000000000 01"),
            Ok(Command::Course {
                k: -4_294_967_296,
                cells: 1,
            })
        );
    }

    #[test]
    fn keeps_limits(rt: HostRuntime) {
        assert!(rt; parse(b"C 1 4096").is_ok());
        assert!(rt; parse(b"C 1 4097").is_err());
        assert!(rt; parse(b"L 1 100 50 1000000000").is_ok());
        assert!(rt; parse(b"L 1 100 50 1000000001").is_err());
        assert!(rt; parse(b"U 4294967295").is_ok());
        assert!(rt; parse(b"U 4294967296").is_err());
    }

    #[test]
    fn refuses(rt: HostRuntime) {
        assert_eq!(rt; parse(b""), Err(Refusal::UnreadLine));
        assert!(rt; parse(b"C  1 100").is_err());
        assert!(rt; parse(b"P 0 1 ").is_err());
        assert!(rt; parse(b"C +1 5").is_err());
    }
}
