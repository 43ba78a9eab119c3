// The rows of the tables: one for each class of library actors and one for each director.
use crate::classes::{
    Arity, Class, ClassParameter, ClassPort, ClassRow, Director, DirectorClass, DirectorRow, Need,
    ParameterRow, PortRow,
};
use crate::job::Direction;

macro_rules! port {
    ($name:literal, $direction:ident, $arity:ident) => {
        PortRow {
            name: $name,
            direction: Direction::$direction,
            arity: Arity::$arity,
        }
    };
}

macro_rules! parameter {
    ($name:literal, $need:ident) => {
        ParameterRow {
            name: $name,
            need: Need::$need,
            is_raw: false,
        }
    };
}

macro_rules! raw {
    ($name:literal, $need:ident) => {
        ParameterRow {
            name: $name,
            need: Need::$need,
            is_raw: true,
        }
    };
}

macro_rules! class {
    ($name:literal, $ports:tt, $parameters:tt, $directors:expr) => {
        ClassRow {
            name: $name,
            ports: &$ports,
            declares: None,
            is_declaring: false,
            least_channels: 0,
            parameters: &$parameters,
            directors: $directors,
        }
    };
}

macro_rules! director {
    ($name:literal, $director:ident, $parameters:tt) => {
        DirectorRow {
            name: $name,
            director: Director::$director,
            parameters: &$parameters,
        }
    };
}

const ALL: &[Director] = &[
    Director::Sdf,
    Director::Pn,
    Director::Rendezvous,
    Director::Sr,
    Director::De,
];

const NOT_SDF: &[Director] = &[
    Director::Pn,
    Director::Rendezvous,
    Director::Sr,
    Director::De,
];

const FLOW: &[Director] = &[Director::Sdf, Director::Pn, Director::Rendezvous];

const SDF_PN: &[Director] = &[Director::Sdf, Director::Pn];

const PN_RENDEZVOUS: &[Director] = &[Director::Pn, Director::Rendezvous];

const RENDEZVOUS: &[Director] = &[Director::Rendezvous];

const SR_DE: &[Director] = &[Director::Sr, Director::De];

const SR: &[Director] = &[Director::Sr];

const DE: &[Director] = &[Director::De];

const TRIGGER: ClassPort = port!("trigger", Input, Optional);

const INPUT: ClassPort = port!("input", Input, Single);

const INPUTS: ClassPort = port!("input", Input, Many);

const OUTPUT: ClassPort = port!("output", Output, Single);

const ITERATIONS: ClassParameter = parameter!("iterations", RequiredAtTop);

/// The directors.
pub static DIRECTORS: [DirectorClass; 5] = [
    director!("SDF", Sdf, [ITERATIONS]),
    director!("SR", Sr, [ITERATIONS]),
    director!("DE", De, [parameter!("stopTime", Optional)]),
    director!(
        "PN",
        Pn,
        [
            parameter!("initialQueueCapacity", Optional),
            parameter!("maximumQueueCapacity", Optional)
        ]
    ),
    director!("Rendezvous", Rendezvous, []),
];

/// The classes of library actors.
pub static CLASSES: [Class; 48] = [
    class!(
        "Const",
        [TRIGGER, OUTPUT],
        [
            parameter!("value", Required),
            parameter!("firingCountLimit", Optional)
        ],
        ALL
    ),
    class!(
        "Ramp",
        [TRIGGER, OUTPUT],
        [
            parameter!("init", Optional),
            parameter!("step", Optional),
            parameter!("firingCountLimit", Optional)
        ],
        ALL
    ),
    class!(
        "Sequence",
        [TRIGGER, OUTPUT],
        [
            parameter!("values", Required),
            parameter!("repeat", Optional)
        ],
        ALL
    ),
    ClassRow {
        least_channels: 1,
        ..class!(
            "AddSubtract",
            [
                port!("plus", Input, ManyOrNone),
                port!("minus", Input, ManyOrNone),
                OUTPUT
            ],
            [],
            ALL
        )
    },
    ClassRow {
        least_channels: 1,
        ..class!(
            "MultiplyDivide",
            [
                port!("multiply", Input, ManyOrNone),
                port!("divide", Input, ManyOrNone),
                OUTPUT
            ],
            [],
            ALL
        )
    },
    class!(
        "Scale",
        [INPUT, OUTPUT],
        [parameter!("factor", Optional)],
        ALL
    ),
    ClassRow {
        declares: Some(Direction::Input),
        ..class!("Expression", [OUTPUT], [raw!("expression", Required)], ALL)
    },
    class!(
        "Accumulator",
        [INPUT, port!("reset", Input, Optional), OUTPUT],
        [parameter!("init", Optional)],
        ALL
    ),
    ClassRow {
        least_channels: 1,
        ..class!(
            "Counter",
            [
                port!("increment", Input, Optional),
                port!("decrement", Input, Optional),
                OUTPUT
            ],
            [],
            SR_DE
        )
    },
    class!("Maximum", [INPUTS, OUTPUT], [], ALL),
    class!("Minimum", [INPUTS, OUTPUT], [], ALL),
    class!("AbsoluteValue", [INPUT, OUTPUT], [], ALL),
    class!(
        "DownSample",
        [INPUT, OUTPUT],
        [
            parameter!("factor", Optional),
            parameter!("phase", Optional)
        ],
        FLOW
    ),
    class!(
        "UpSample",
        [INPUT, OUTPUT],
        [
            parameter!("factor", Optional),
            parameter!("phase", Optional)
        ],
        FLOW
    ),
    class!(
        "Repeat",
        [INPUT, OUTPUT],
        [
            parameter!("numberOfTimes", Optional),
            parameter!("blockSize", Optional)
        ],
        FLOW
    ),
    class!(
        "SampleDelay",
        [INPUT, OUTPUT],
        [parameter!("initialOutputs", Optional)],
        SDF_PN
    ),
    class!(
        "BooleanSwitch",
        [
            INPUT,
            port!("control", Input, Single),
            port!("trueOutput", Output, Single),
            port!("falseOutput", Output, Single)
        ],
        [],
        NOT_SDF
    ),
    class!(
        "BooleanSelect",
        [
            port!("trueInput", Input, Single),
            port!("falseInput", Input, Single),
            port!("control", Input, Single),
            OUTPUT
        ],
        [],
        PN_RENDEZVOUS
    ),
    class!(
        "Comparator",
        [
            port!("left", Input, Single),
            port!("right", Input, Single),
            OUTPUT
        ],
        [raw!("comparison", Optional)],
        ALL
    ),
    class!("Equals", [INPUTS, OUTPUT], [], ALL),
    class!("LogicalNot", [INPUT, OUTPUT], [], ALL),
    class!(
        "LogicFunction",
        [INPUTS, OUTPUT],
        [raw!("function", Optional)],
        ALL
    ),
    class!(
        "ArrayElement",
        [INPUT, OUTPUT],
        [parameter!("index", Optional)],
        ALL
    ),
    class!("ElementsToArray", [INPUTS, OUTPUT], [], ALL),
    class!(
        "SequenceToArray",
        [INPUT, OUTPUT],
        [parameter!("arrayLength", Optional)],
        FLOW
    ),
    class!(
        "ArrayToSequence",
        [INPUT, OUTPUT],
        [parameter!("arrayLength", Optional)],
        FLOW
    ),
    ClassRow {
        declares: Some(Direction::Input),
        is_declaring: true,
        ..class!("RecordAssembler", [OUTPUT], [], ALL)
    },
    ClassRow {
        declares: Some(Direction::Output),
        is_declaring: true,
        ..class!("RecordDisassembler", [INPUT], [], ALL)
    },
    class!("StringLength", [INPUT, OUTPUT], [], ALL),
    class!(
        "Limiter",
        [INPUT, OUTPUT],
        [parameter!("bottom", Required), parameter!("top", Required)],
        ALL
    ),
    class!("Discard", [INPUTS], [], ALL),
    class!(
        "TimeDelay",
        [INPUT, OUTPUT],
        [parameter!("delay", Required)],
        DE
    ),
    class!(
        "DiscreteClock",
        [OUTPUT],
        [
            parameter!("period", Required),
            parameter!("offsets", Optional),
            parameter!("values", Optional)
        ],
        DE
    ),
    class!(
        "SingleEvent",
        [OUTPUT],
        [parameter!("time", Optional), parameter!("value", Optional)],
        DE
    ),
    class!(
        "CurrentTime",
        [port!("trigger", Input, Single), OUTPUT],
        [],
        DE
    ),
    class!(
        "Sampler",
        [INPUT, port!("trigger", Input, Single), OUTPUT],
        [parameter!("initialValue", Optional)],
        DE
    ),
    class!(
        "Register",
        [INPUT, port!("trigger", Input, Single), OUTPUT],
        [parameter!("initialValue", Optional)],
        DE
    ),
    class!(
        "Server",
        [INPUT, OUTPUT],
        [parameter!("serviceTime", Required)],
        DE
    ),
    class!(
        "NonStrictDelay",
        [INPUT, OUTPUT],
        [parameter!("initialValue", Optional)],
        SR
    ),
    class!(
        "Pre",
        [INPUT, OUTPUT],
        [parameter!("initialValue", Optional)],
        SR_DE
    ),
    class!(
        "When",
        [INPUT, port!("control", Input, Single), OUTPUT],
        [],
        SR_DE
    ),
    class!(
        "Default",
        [
            port!("preferred", Input, Single),
            port!("alternate", Input, Single),
            OUTPUT
        ],
        [],
        SR_DE
    ),
    class!("Current", [INPUT, OUTPUT], [], SR),
    class!("Absent", [OUTPUT], [], SR),
    class!(
        "NonStrictMux",
        [port!("select", Input, Single), INPUTS, OUTPUT],
        [],
        SR
    ),
    class!(
        "NonStrictLogicGate",
        [INPUTS, OUTPUT],
        [raw!("function", Optional)],
        SR
    ),
    class!("Merge", [INPUTS, OUTPUT], [], RENDEZVOUS),
    class!("Barrier", [INPUTS, OUTPUT], [], RENDEZVOUS),
];
