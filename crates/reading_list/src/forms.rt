//! The two forms of a line: JSON and comma separated values.
ghost use Rattle.std.specs.Prelude.{◌≡◌};
ghost use Rattle.reading_list.specs.RecordLines.{before, closing, head_text};

/// The form of the lines.
#[derive(Clone, Copy)]
pub enum Form {
    /// A JSON object (RFC 8259) in each line.
    Json,
    /// Comma separated values (RFC 4180), with a line of names in front. A line ends with a newline alone.
    Csv,
}

/// What a line says, one after another.
#[derive(Clone, Copy)]
pub enum Member {
    Address,
    Label,
    Receiver,
    Line,
    Moment,
    Counter,
    Record,
    Function,
    Storage,
    Tariff,
    Subunit,
    Quantity,
    Unit,
    Value,
    Number,
    Qualifiers,
    Type,
    ProfileQuantity,
    AsPlain,
    Modifiers,
    Raw,
}

// What stands in front of a member's value in JSON.
fn before_in_json(member: Member) -> &'static str
    ensures { result.now ≡ before Form.Json member }
{
    match member {
        Member::Address => "{\"address\":\"",
        Member::Label => "\",\"label\":\"",
        Member::Receiver => "\",\"receiver\":",
        Member::Line => ",\"line\":",
        Member::Moment => ",\"moment\":",
        Member::Counter => ",\"counter\":",
        Member::Record => ",\"record\":",
        Member::Function => ",\"function\":\"",
        Member::Storage => "\",\"storage\":",
        Member::Tariff => ",\"tariff\":",
        Member::Subunit => ",\"subunit\":",
        Member::Quantity => ",\"quantity\":\"",
        Member::Unit => "\",\"unit\":\"",
        Member::Value => "\",\"value\":\"",
        Member::Number => "\",\"number\":",
        Member::Qualifiers => ",\"qualifiers\":\"",
        Member::Type => "\",\"type\":\"",
        Member::ProfileQuantity => "\",\"profile_quantity\":\"",
        Member::AsPlain => "\",\"as_plain\":\"",
        Member::Modifiers => "\",\"modifiers\":\"",
        Member::Raw => "\",\"raw\":\"",
    }
}

// What stands in front of a member's value between commas.
fn before_in_csv(member: Member) -> &'static str
    ensures { result.now ≡ before Form.Csv member }
{
    match member {
        Member::Address => "",
        _ => ",",
    }
}

impl Form {
    ghost use Rattle.std.specs.Prelude.{◌≡◌};
    ghost use Rattle.reading_list.specs.RecordLines.{before, closing, head_text, no_member, no_number};

    /// What stands in front of a member's value.
    pub(crate) fn before(self, member: Member) -> &'static str
        ensures { result.now ≡ before self member }
    {
        match self {
            Form::Json => before_in_json(member),
            Form::Csv => before_in_csv(member),
        }
    }

    /// What stands for a number that there isn't.
    pub(crate) fn no_number(self) -> &'static str
        ensures { result.now ≡ no_number self }
    {
        match self {
            Form::Json => "null",
            Form::Csv => "",
        }
    }

    /// What stands for a member that a line lacks.
    pub(crate) fn no_member(self) -> &'static str
        ensures { result.now ≡ no_member self }
    {
        match self {
            Form::Json => "",
            Form::Csv => ",",
        }
    }

    /// What ends a line.
    pub(crate) fn closing(self) -> &'static str
        ensures { result.now ≡ closing self }
    {
        match self {
            Form::Json => "\"}\n",
            Form::Csv => "\n",
        }
    }

    /// What stands in front of all lines.
    pub(crate) fn head(self) -> &'static str
        ensures { result.now ≡ head_text self }
    {
        match self {
            Form::Json => "",
            Form::Csv => {
                "address,label,receiver,line,moment,counter,record,function,storage,tariff,subunit,quantity,unit,value,number,qualifiers,type,profile_quantity,as_plain,modifiers,raw\n"
            }
        }
    }
}
