// The published scenarios, by name and title.

#[derive(Clone, Copy)]
pub struct Scenario {
    pub name: &'static str,
    pub title: &'static str,
}

// Each on its own, and at last all of them in one hour.
pub const SCENARIOS: [Scenario; 22] = [
    Scenario {
        name: "intertie-energy",
        title: "intertie, energy",
    },
    Scenario {
        name: "intertie-reserve",
        title: "intertie, reserve",
    },
    Scenario {
        name: "ex-ante-energy-hydro",
        title: "ex-ante energy, hydro",
    },
    Scenario {
        name: "ex-ante-energy-several",
        title: "ex-ante energy, several resources",
    },
    Scenario {
        name: "ex-ante-energy-thermal",
        title: "ex-ante energy, thermal",
    },
    Scenario {
        name: "ex-ante-energy-variable",
        title: "ex-ante energy, variable",
    },
    Scenario {
        name: "ex-ante-reserve-hydro",
        title: "ex-ante reserve, hydro",
    },
    Scenario {
        name: "ex-ante-reserve-thermal",
        title: "ex-ante reserve, thermal",
    },
    Scenario {
        name: "ex-ante-reserve-storage",
        title: "ex-ante reserve, storage",
    },
    Scenario {
        name: "ex-ante-reserve-load-with-storage",
        title: "ex-ante reserve, load with storage",
    },
    Scenario {
        name: "ex-ante-reserve-load-without-storage",
        title: "ex-ante reserve, load without storage",
    },
    Scenario {
        name: "ex-post-energy-hydro",
        title: "ex-post energy, hydro",
    },
    Scenario {
        name: "ex-post-energy-several",
        title: "ex-post energy, several resources",
    },
    Scenario {
        name: "ex-post-energy-thermal",
        title: "ex-post energy, thermal",
    },
    Scenario {
        name: "ex-post-energy-variable",
        title: "ex-post energy, variable",
    },
    Scenario {
        name: "ex-post-energy-storage",
        title: "ex-post energy, storage",
    },
    Scenario {
        name: "ex-post-reserve-hydro",
        title: "ex-post reserve, hydro",
    },
    Scenario {
        name: "ex-post-reserve-several",
        title: "ex-post reserve, several resources",
    },
    Scenario {
        name: "ex-post-reserve-load-with-storage",
        title: "ex-post reserve, load with storage",
    },
    Scenario {
        name: "ex-post-reserve-load-without-storage",
        title: "ex-post reserve, load without storage",
    },
    Scenario {
        name: "ex-post-reserve-thermal",
        title: "ex-post reserve, thermal",
    },
    Scenario {
        name: "all-in-one-hour",
        title: "all of them in one hour",
    },
];
