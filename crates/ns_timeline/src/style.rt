//! How the marks of a document look.

/// What a document is, to whoever hears it and doesn't see it.
pub const NAMES: &[u8] = b"<title>A run, turn by turn</title>
<desc>Each thread has a lane from top to bottom, with its calls, sections and waits. Each turn that changed \
something has a line across.</desc>
";

/// The classes of marks: dark marks on a light page, and light ones on a dark page. Colours differ in lightness,
/// and marks of one place in shape too, so that they are told apart in print.
pub const STYLE: &[u8] = b"<style>
text{font:12px ui-monospace,Menlo,Consolas,'DejaVu Sans Mono',monospace;fill:#1f2328}
.page{fill:#ffffff}
.lane{stroke:#d0d7de;stroke-width:1}
.call{fill:#f3f5f8;stroke:#c9d1d9}
.write{fill:#0b3d91;stroke:#0b3d91;stroke-width:2}
.read{fill:#ffffff;stroke:#0b3d91;stroke-width:2}
.lock{stroke:#8c1d18;stroke-width:4}
.condition{stroke:#b45f06;stroke-width:4;stroke-dasharray:8 4}
.variable{stroke:#3a8f7d;stroke-width:4;stroke-dasharray:2 3}
.queues{fill:#f7d774;stroke:#7a5c00}
.wake{fill:none;stroke:#116329;stroke-width:2}
.signal{fill:none;stroke:#8f5ae8;stroke-width:2;stroke-dasharray:6 3}
.plain{fill:#57606a}
.deadline,.note{fill:#cf222e}
.turn{fill:#57606a;text-anchor:end}
.name{font-weight:bold}
.goes{fill:#57606a}
.row{fill:#ffffff;text-anchor:middle;writing-mode:vertical-rl}
@media (prefers-color-scheme:dark){
text{fill:#e6edf3}
.page{fill:#0d1117}
.lane{stroke:#30363d}
.call{fill:#1a2029;stroke:#3d444d}
.write{fill:#9cc5ff;stroke:#9cc5ff}
.read{fill:#0d1117;stroke:#9cc5ff}
.lock{stroke:#ffb3a8}
.condition{stroke:#e8943a}
.variable{stroke:#3fa792}
.queues{fill:#6b5200;stroke:#f2c94c}
.wake{stroke:#7ee787}
.signal{stroke:#9a6cf0}
.plain,.turn,.goes{fill:#a5b0bc}
.deadline,.note{fill:#ff7b72}
.row{fill:#0d1117}
}
</style>
";
