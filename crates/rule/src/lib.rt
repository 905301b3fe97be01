// The rules of proof.rs, with document 01's numbers and proof.rs's names.
#![tactic(auto)]

ghost use Rattle.rule.specs.Numbers.{number_of, Decodes};
ghost use Rattle.std.specs.Prelude.{◌≡◌};

use std::error::Error;
use std::fmt;

// proof.rs: `Rule`, without what a Cut and a focus rule carry.
#[derive(Clone, Copy, Debug, PartialEq, Eq)]
pub enum Rule {
    Axiom,
    Cut,
    OneIntro,
    BottomIntro,
    TensorIntro,
    ParIntro,
    TopIntro,
    WithIntro,
    PlusIntroLeft,
    PlusIntroRight,
    OfCourseIntro,
    WhyNotIntro,
    Weakening,
    Contraction,
    Dereliction,
    FocusPositive,
    FocusNegative,
    Blur,
}

// A number that is no rule's.
#[derive(Clone, Copy, Debug, PartialEq, Eq)]
pub struct UnknownRule(pub u8);

impl TryFrom<u8> for Rule {
    type Error = UnknownRule;

    ghost try_from_gives = { Decodes };

    fn try_from(number: u8) -> Result<Self, UnknownRule> {
        match number {
            0 => Ok(Rule::Axiom),
            1 => Ok(Rule::Cut),
            2 => Ok(Rule::OneIntro),
            3 => Ok(Rule::BottomIntro),
            4 => Ok(Rule::TensorIntro),
            5 => Ok(Rule::ParIntro),
            6 => Ok(Rule::TopIntro),
            7 => Ok(Rule::WithIntro),
            8 => Ok(Rule::PlusIntroLeft),
            9 => Ok(Rule::PlusIntroRight),
            10 => Ok(Rule::OfCourseIntro),
            11 => Ok(Rule::WhyNotIntro),
            12 => Ok(Rule::Weakening),
            13 => Ok(Rule::Contraction),
            14 => Ok(Rule::Dereliction),
            15 => Ok(Rule::FocusPositive),
            16 => Ok(Rule::FocusNegative),
            17 => Ok(Rule::Blur),
            _ => Err(UnknownRule(number)),
        }
    }
}

impl From<Rule> for u8 {
    ghost from_gives = { λ rule n. n ≡ number_of rule };

    fn from(rule: Rule) -> u8 {
        match rule {
            Rule::Axiom => 0,
            Rule::Cut => 1,
            Rule::OneIntro => 2,
            Rule::BottomIntro => 3,
            Rule::TensorIntro => 4,
            Rule::ParIntro => 5,
            Rule::TopIntro => 6,
            Rule::WithIntro => 7,
            Rule::PlusIntroLeft => 8,
            Rule::PlusIntroRight => 9,
            Rule::OfCourseIntro => 10,
            Rule::WhyNotIntro => 11,
            Rule::Weakening => 12,
            Rule::Contraction => 13,
            Rule::Dereliction => 14,
            Rule::FocusPositive => 15,
            Rule::FocusNegative => 16,
            Rule::Blur => 17,
        }
    }
}

impl fmt::Display for Rule {
    fn fmt<W: fmt::Write>(&self, f: &mut fmt::Formatter<W>) -> fmt::Result {
        f.write_str(match self {
            Rule::Axiom => "Axiom",
            Rule::Cut => "Cut",
            Rule::OneIntro => "OneIntro",
            Rule::BottomIntro => "BottomIntro",
            Rule::TensorIntro => "TensorIntro",
            Rule::ParIntro => "ParIntro",
            Rule::TopIntro => "TopIntro",
            Rule::WithIntro => "WithIntro",
            Rule::PlusIntroLeft => "PlusIntroLeft",
            Rule::PlusIntroRight => "PlusIntroRight",
            Rule::OfCourseIntro => "OfCourseIntro",
            Rule::WhyNotIntro => "WhyNotIntro",
            Rule::Weakening => "Weakening",
            Rule::Contraction => "Contraction",
            Rule::Dereliction => "Dereliction",
            Rule::FocusPositive => "FocusPositive",
            Rule::FocusNegative => "FocusNegative",
            Rule::Blur => "Blur",
        })
    }
}

impl fmt::Display for UnknownRule {
    fn fmt<W: fmt::Write>(&self, f: &mut fmt::Formatter<W>) -> fmt::Result {
        write!(f, "no rule has the number {}", self.0)
    }
}

impl Error for UnknownRule {}
