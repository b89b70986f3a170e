// A small table, loaded and told whole.
use crate::bench::Bench;
use crate::facts::print_facts;
use crate::growing::print_names;
use files::pair::Files;
use std::io;

const FILES: Files<'static> = Files {
    transitions: b"des (0, 4, 4)
(0, \"i\", 1)
(1, \"head:press.hold\", 2)
(2, \"head:press.release;head:dryer.less\", 1)
(2, \"head:out.stop\", 3)
",
    labels: b"0=\"init\" 1=\"deadlock\" 2=\"cold\" 3=\"reading\"
0: 0 2
2: 3
3: 1
",
};

pub fn run(rt: &HostRuntime) -> io::Result<()> {
    println!(rt; "a small table")?;
    let mut bench = Bench::new(rt.alloc(), 4, 4)?;
    let Ok(shape) = bench.load(FILES) else {
        return println!(rt; "refused");
    };
    print_names(rt, &bench)?;
    let table = bench.table(shape);
    print_facts(rt, &table, &bench.vocabulary)
}
