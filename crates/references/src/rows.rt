// The rule table: the names that hold references, and for a name the cells property that its targets are asked for. A name is
// matched whole and exact, save the endings and the part that are asked for as such. The names are data, in 01's order.
ghost use Rattle.std.specs.Prelude.{◌≡◌, Some};
ghost use Rattle.rules.specs.Octets.{ascii, same, ends};
ghost use Rattle.rules.specs.Tree.{among};
ghost use Rattle.rules.specs.References.{reference_names, is_gpio, is_reference, cell_rows, cells_in};
ghost use Rattle.references.specs.Rows.{stands_in, name_of, meaning, is_named};

// The names that hold references.
const NAMES: [&[u8]; 23] = [
    b"clocks",
    b"power-domains",
    b"phys",
    b"resets",
    b"dmas",
    b"thermal-sensors",
    b"mboxes",
    b"assigned-clocks",
    b"interrupt-parent",
    b"phy-handle",
    b"msi-parent",
    b"memory-region",
    b"syscon",
    b"regmap",
    b"iommus",
    b"interconnects",
    b"nvmem-cells",
    b"sound-dai",
    b"pinctrl-0",
    b"pinctrl-1",
    b"pinctrl-2",
    b"pinctrl-3",
    b"pinctrl-4",
];

// The cells properties, each of which tells how many words follow a reference to the node that has it.
#[derive(Clone, Copy)]
pub enum Cells {
    Clock,
    Reset,
    PowerDomain,
    Phy,
    Interrupt,
    Gpio,
    Dma,
    ThermalSensor,
    SoundDai,
    Mbox,
    Pwm,
}

impl Cells {
    // The property's name.
    fn name(self) -> &'static [u8]
        ensures { result.now ≡ ascii (name_of self) }
    {
        match self {
            Cells::Clock => b"#clock-cells",
            Cells::Reset => b"#reset-cells",
            Cells::PowerDomain => b"#power-domain-cells",
            Cells::Phy => b"#phy-cells",
            Cells::Interrupt => b"#interrupt-cells",
            Cells::Gpio => b"#gpio-cells",
            Cells::Dma => b"#dma-cells",
            Cells::ThermalSensor => b"#thermal-sensor-cells",
            Cells::SoundDai => b"#sound-dai-cells",
            Cells::Mbox => b"#mbox-cells",
            Cells::Pwm => b"#pwm-cells",
        }
    }
}

// Names that ask their targets for one cells property.
#[derive(Clone, Copy)]
struct Row<'a> {
    names: &'a [&'a [u8]],
    cells: Cells,
}

impl<'a> Row<'a> {
    // Whether a property of this name asks so.
    fn asks(&self, name: &[u8]) -> bool
        ensures { result ≡ stands_in name.now self.now.names.now }
    {
        self.names.contains(&name)
    }
}

// Which name asks for which cells property.
const ROWS: [Row; 11] = [
    Row {
        names: &[b"clocks", b"assigned-clocks"],
        cells: Cells::Clock,
    },
    Row {
        names: &[b"resets"],
        cells: Cells::Reset,
    },
    Row {
        names: &[b"power-domains"],
        cells: Cells::PowerDomain,
    },
    Row {
        names: &[b"phys"],
        cells: Cells::Phy,
    },
    Row {
        names: &[b"interrupts", b"interrupts-extended"],
        cells: Cells::Interrupt,
    },
    Row {
        names: &[b"gpios"],
        cells: Cells::Gpio,
    },
    Row {
        names: &[b"dmas"],
        cells: Cells::Dma,
    },
    Row {
        names: &[b"thermal-sensors"],
        cells: Cells::ThermalSensor,
    },
    Row {
        names: &[b"sound-dai"],
        cells: Cells::SoundDai,
    },
    Row {
        names: &[b"mboxes"],
        cells: Cells::Mbox,
    },
    Row {
        names: &[b"pwms"],
        cells: Cells::Pwm,
    },
];

// Whether it is one of the 23 names.
fn is_listed(name: &[u8]) -> bool
    ensures { result ≡ among name.now reference_names }
{
    NAMES.contains(&name)
}

// Whether the name ends in `-gpios` or `-gpio`.
#[tactic(auto, unfolding(rules::specs::Octets::ascii, rules::specs::References::is_gpio))]
fn is_gpio(name: &[u8]) -> bool
    ensures { result ≡ is_gpio name.now }
{
    octets::ends(b"-gpios", name) || octets::ends(b"-gpio", name)
}

// Whether a property of this name holds references: it is one of the 23 names or `gpios`, ends in `-supply`, `-gpios` or
// `-gpio`, or holds `cells` and does not begin with `#`.
#[tactic(auto, unfolding(rules::specs::Octets::ascii, rules::specs::References::is_reference))]
pub fn is_phandle_property(name: &[u8]) -> bool
    ensures { result ≡ is_reference name.now }
{
    is_listed(name)
        || octets::ends(b"-supply", name)
        || octets::same(name, b"gpios")
        || is_gpio(name)
        || octets::holds(b"cells", name) && !octets::begins(b"#", name)
}

// The cells property that a property of this name asks its targets for; None where it asks for none, and a reference is one
// word.
pub fn cells_name(name: &[u8]) -> Option<Cells>
    ensures { meaning result ≡ cells_in cell_rows name.now }
{
    if let Some(row) = ROWS.iter().find(|row| row.asks(name)) {
        return Some(row.cells);
    }
    is_gpio(name).then_some(Cells::Gpio)
}

// Whether a property of this name is that cells property; false where none is asked for.
pub fn is_cells(cells: Option<Cells>, name: &[u8]) -> bool
    ensures { result ≡ is_named (meaning cells) name.now }
{
    match cells {
        Some(asked) => asked.name() == name,
        None => false,
    }
}
