// The 16 property names that refusal 11 reads.
ghost use Rattle.std.specs.Prelude.{◌≡◌};
ghost use Rattle.rules.specs.Tree.{is_phandle, among, cells_names};

const PHANDLE_NAMES: [&[u8]; 2] = [b"phandle", b"linux,phandle"];

const CELLS_NAMES: [&[u8]; 14] = [
    b"#address-cells",
    b"#size-cells",
    b"#clock-cells",
    b"#reset-cells",
    b"#gpio-cells",
    b"#interrupt-cells",
    b"#power-domain-cells",
    b"#thermal-sensor-cells",
    b"#phy-cells",
    b"#dma-cells",
    b"#sound-dai-cells",
    b"#mbox-cells",
    b"#pwm-cells",
    b"#iommu-cells",
];

// Whether n gives a node its phandle.
pub fn is_phandle_name(n: &[u8]) -> bool
    ensures { result ≡ is_phandle n.now }
{
    PHANDLE_NAMES.contains(&n)
}

// Whether n is one of the 14 names of cells. Most names do not begin with `#`, and are done with at once.
pub fn is_cells_name(n: &[u8]) -> bool
    ensures { result ≡ among n.now cells_names }
{
    n.starts_with(b"#") && CELLS_NAMES.contains(&n)
}
