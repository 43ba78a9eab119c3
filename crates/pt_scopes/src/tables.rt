// The forms of the parameters of the classes and of the directors. What isn't listed may be any token.
use crate::form::{Form, FormRow, ParameterForm, Standard};

/// The most that a limit of firings may be.
const MOST_FIRINGS: i64 = 1_000_000_000;

/// The most tokens of one firing.
const MOST_TOKENS: i64 = 1_000_000;

/// The last time, in ticks.
const LAST_TIME: i64 = 4_611_686_018_427_387_904;

const NUMBER: Form = Form::Integer {
    least: i64::MIN,
    most: i64::MAX,
};

const LIMIT: Form = Form::Integer {
    least: 0,
    most: MOST_FIRINGS,
};

const COUNT: Form = Form::Integer {
    least: 1,
    most: MOST_TOKENS,
};

const TIME: Form = Form::Integer {
    least: 0,
    most: LAST_TIME,
};

const PERIOD: Form = Form::Integer {
    least: 1,
    most: LAST_TIME,
};

/// The form of a rate of a port.
pub const RATE: Form = COUNT;

macro_rules! form {
    ($class:literal, $name:literal, $form:expr, $standard:expr) => {
        FormRow {
            class: $class,
            name: $name,
            form: $form,
            standard: $standard,
        }
    };
}

/// The forms of the parameters.
pub static FORMS: [ParameterForm; 41] = [
    form!("SDF", "iterations", LIMIT, Standard::Nothing),
    form!("SR", "iterations", LIMIT, Standard::Nothing),
    form!("DE", "stopTime", TIME, Standard::Nothing),
    form!("PN", "initialQueueCapacity", COUNT, Standard::Integer(1)),
    form!(
        "PN",
        "maximumQueueCapacity",
        COUNT,
        Standard::Integer(65_536)
    ),
    form!("Const", "value", Form::Any, Standard::Nothing),
    form!("Const", "firingCountLimit", LIMIT, Standard::Integer(0)),
    form!("Ramp", "init", NUMBER, Standard::Integer(0)),
    form!("Ramp", "step", NUMBER, Standard::Integer(1)),
    form!("Ramp", "firingCountLimit", LIMIT, Standard::Integer(0)),
    form!("Sequence", "values", Form::FullArray, Standard::Nothing),
    form!("Sequence", "repeat", Form::Truth, Standard::Truth(false)),
    form!("Scale", "factor", NUMBER, Standard::Integer(1)),
    form!("Expression", "expression", Form::Tree, Standard::Nothing),
    form!("Accumulator", "init", NUMBER, Standard::Integer(0)),
    form!("DownSample", "factor", COUNT, Standard::Integer(2)),
    form!("DownSample", "phase", NUMBER, Standard::Integer(0)),
    form!("UpSample", "factor", COUNT, Standard::Integer(2)),
    form!("UpSample", "phase", NUMBER, Standard::Integer(0)),
    form!("Repeat", "numberOfTimes", COUNT, Standard::Integer(2)),
    form!("Repeat", "blockSize", COUNT, Standard::Integer(1)),
    form!(
        "SampleDelay",
        "initialOutputs",
        Form::Array,
        Standard::Single(0)
    ),
    form!(
        "Comparator",
        "comparison",
        Form::Comparison,
        Standard::FirstWord
    ),
    form!(
        "LogicFunction",
        "function",
        Form::Function,
        Standard::FirstWord
    ),
    form!("ArrayElement", "index", NUMBER, Standard::Integer(0)),
    form!(
        "SequenceToArray",
        "arrayLength",
        COUNT,
        Standard::Integer(1)
    ),
    form!(
        "ArrayToSequence",
        "arrayLength",
        COUNT,
        Standard::Integer(1)
    ),
    form!("Limiter", "bottom", NUMBER, Standard::Nothing),
    form!("Limiter", "top", NUMBER, Standard::Nothing),
    form!("TimeDelay", "delay", TIME, Standard::Nothing),
    form!("DiscreteClock", "period", PERIOD, Standard::Nothing),
    form!(
        "DiscreteClock",
        "offsets",
        Form::Offsets,
        Standard::Single(0)
    ),
    form!("DiscreteClock", "values", Form::Array, Standard::Single(1)),
    form!("SingleEvent", "time", TIME, Standard::Integer(0)),
    form!("SingleEvent", "value", Form::Any, Standard::Integer(1)),
    form!("Sampler", "initialValue", Form::Any, Standard::Nothing),
    form!("Register", "initialValue", Form::Any, Standard::Nothing),
    form!("Server", "serviceTime", TIME, Standard::Nothing),
    form!(
        "NonStrictDelay",
        "initialValue",
        Form::Any,
        Standard::Nothing
    ),
    form!("Pre", "initialValue", Form::Any, Standard::Nothing),
    form!(
        "NonStrictLogicGate",
        "function",
        Form::Gate,
        Standard::FirstWord
    ),
];
