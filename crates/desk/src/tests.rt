// A desk can be made, and checks texts.
use super::{AnswerText, Call, Declined, Desk, DomainName};
use std::test::Fail;

const SOURCE: &[u8] = b"M\tdone\t0002\nO\t1\t1\t3\t4\nE\tdone\n";

// An unknown letter.
const DAMAGED: &[u8] = b"K\nE\tdone\n";

// The operands of a subtraction exchanged.
const TURNED: &[u8] = b"O\t1\t1\t4\t3\nE\tdone\n";

#[test]
fn a_desk_is_opened_and_checks(rt: HostRuntime) -> Result<(), Fail> {
    let mut desk = Desk::new(rt.alloc(), 2)?;
    assert!(rt; matches!(desk.open(), Ok(2)));
    for domain in DomainName::ALL {
        let answer = AnswerText(desk.check(domain, 1, SOURCE, DAMAGED));
        let text = format!(in rt.alloc(); "{answer}")?;
        assert_eq!(rt; text.as_str(), "refused schedule 6 1 0 line");
        let answer = AnswerText(desk.check(domain, 1, SOURCE, TURNED));
        let text = format!(in rt.alloc(); "{domain} {answer}")?;
        let name = domain.name();
        let expected = format!(in rt.alloc(); "{name} failed 0 1 register 1")?;
        assert_eq!(rt; text.as_str(), expected.as_str());
    }
    Ok(())
}

#[test]
fn an_empty_desk_is_not_opened(rt: HostRuntime) -> Result<(), Fail> {
    let mut desk = Desk::new(rt.alloc(), 0)?;
    match desk.open() {
        Err(Declined { call, refusal }) => {
            assert!(rt; matches!(call, Call::Open));
            assert_eq!(rt; call.name(), "open");
            assert_eq!(rt; refusal.number.printed(), 1);
            Ok(())
        }
        Ok(_) => Err(Fail::new("opened")),
    }
}

#[test]
fn every_domain_has_its_word(rt: HostRuntime) {
    let [w, t, kw, kt, kkw] = DomainName::ALL;
    assert_eq!(rt; w.name(), "w");
    assert_eq!(rt; t.name(), "t");
    assert_eq!(rt; kw.name(), "kw");
    assert_eq!(rt; kt.name(), "kt");
    assert_eq!(rt; kkw.name(), "kkw");
}

#[test]
fn a_desk_of_one_region_passes_a_schedule(rt: HostRuntime) -> Result<(), Fail> {
    let mut desk = Desk::new(rt.alloc(), 1)?;
    assert!(rt; matches!(desk.open(), Ok(1)));
    let schedule = b"O\t1\t1\t3\t4\nE\tdone\n";
    let answer = AnswerText(desk.check(DomainName::Trapping, 0, SOURCE, schedule));
    let text = format!(in rt.alloc(); "{answer}")?;
    assert_eq!(rt; text.as_str(), "passed");
    Ok(())
}

#[test]
fn words_name_domains(rt: HostRuntime) -> Result<(), Fail> {
    assert!(rt;
        matches!(
            "kkw".parse::<DomainName>(),
            Ok(DomainName::TwiceTaggedWrapping)
        )
    );
    assert!(rt; "wk".parse::<DomainName>().is_err());
    Ok(())
}
