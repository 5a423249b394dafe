//! The two forms of a record: the members of an object of JSON, and comma separated values.
ghost use Rattle.std.specs.Prelude.{◌≡◌};
ghost use Rattle.record_objects.specs.Words.{before};

// The form of a record.
#[derive(Clone, Copy)]
pub(crate) enum Form {
    // The members of an object (RFC 8259).
    Json,
    // Comma separated values (RFC 4180).
    Csv,
}

// What a record says, one after another.
#[derive(Clone, Copy)]
pub(crate) enum Member {
    Record,
    Function,
    Storage,
    Tariff,
    Subunit,
    Quantity,
    Unit,
    Value,
    Number,
    Qualifiers,
    Type,
    ProfileQuantity,
    AsPlain,
    Modifiers,
    Raw,
}

// What stands in front of a member's value in JSON.
fn before_in_json(member: Member) -> &'static str
    ensures { result.now ≡ before Form.Json member }
{
    match member {
        Member::Record => "\"record\":",
        Member::Function => ",\"function\":\"",
        Member::Storage => "\",\"storage\":",
        Member::Tariff => ",\"tariff\":",
        Member::Subunit => ",\"subunit\":",
        Member::Quantity => ",\"quantity\":\"",
        Member::Unit => "\",\"unit\":\"",
        Member::Value => "\",\"value\":\"",
        Member::Number => "\",\"number\":",
        Member::Qualifiers => ",\"qualifiers\":\"",
        Member::Type => "\",\"type\":\"",
        Member::ProfileQuantity => "\",\"profile_quantity\":\"",
        Member::AsPlain => "\",\"as_plain\":\"",
        Member::Modifiers => "\",\"modifiers\":\"",
        Member::Raw => "\",\"raw\":\"",
    }
}

// What stands in front of a member's value between commas.
fn before_in_csv(member: Member) -> &'static str
    ensures { result.now ≡ before Form.Csv member }
{
    match member {
        Member::Record => "",
        _ => ",",
    }
}

impl Form {
    ghost use Rattle.std.specs.Prelude.{◌≡◌};
    ghost use Rattle.record_objects.specs.Words.{before, closing, no_member, no_number};

    // What stands in front of a member's value.
    pub(crate) fn before(self, member: Member) -> &'static str
        ensures { result.now ≡ before self member }
    {
        match self {
            Form::Json => before_in_json(member),
            Form::Csv => before_in_csv(member),
        }
    }

    // What stands for a number that there isn't.
    pub(crate) fn no_number(self) -> &'static str
        ensures { result.now ≡ no_number self }
    {
        match self {
            Form::Json => "null",
            Form::Csv => "",
        }
    }

    // What stands for a member that a record lacks.
    pub(crate) fn no_member(self) -> &'static str
        ensures { result.now ≡ no_member self }
    {
        match self {
            Form::Json => "",
            Form::Csv => ",",
        }
    }

    // What ends the last member.
    pub(crate) fn closing(self) -> &'static str
        ensures { result.now ≡ closing self }
    {
        match self {
            Form::Json => "\"",
            Form::Csv => "",
        }
    }
}
